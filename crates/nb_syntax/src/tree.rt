use nb_value::{Boxed, Function, Items, Text};
use std::fmt;

/// The sign of an operator.
#[derive(Clone, Copy, PartialEq, Eq)]
pub enum Sign {
    /// `+`
    Plus,
    /// `-`, of a sum and of one part alone
    Minus,
    /// `*`
    Times,
    /// `/`
    Divide,
    /// `%`
    Remainder,
    /// `==`
    Equal,
    /// `!=`
    NotEqual,
    /// `<`
    Less,
    /// `<=`
    LessOrEqual,
    /// `>`
    Greater,
    /// `>=`
    GreaterOrEqual,
    /// `!`
    Not,
}

/// An expression. Brackets round one leave no node.
#[cycle(tree)]
#[derive(Drop)]
pub enum Expr {
    /// A number. One that was read isn't negative.
    Int(i64),
    /// A quoted text, without its quotes and escapes.
    Quoted(Text),
    Bool(bool),
    Null,
    Name(Text),
    List(Items<Expr>),
    /// The keys with their values as written; of equal keys the last counts.
    Rec(Items<Member>),
    /// In a cell that was read there are as many arguments as the function has.
    Call(Function, Items<Expr>),
    Fetch(Boxed<Expr>),
    /// At least one step.
    Path(Boxed<Expr>, Items<PathStep>),
    /// `-` or `!`, in a cell that was read.
    Unary(Sign, Boxed<Expr>),
    /// A first part, and at least one part after it with `*`, `/` or `%`, from left to right.
    Product(Boxed<Expr>, Items<Operand>),
    /// A first part, and at least one part after it with `+` or `-`, from left to right.
    Sum(Boxed<Expr>, Items<Operand>),
    /// One of the six signs of comparison, in a cell that was read.
    Compare(Sign, Boxed<Expr>, Boxed<Expr>),
    /// At least two parts.
    And(Items<Expr>),
    /// At least two parts.
    Or(Items<Expr>),
    /// The test, the value where it is true, and the value where it is false.
    Choose(Boxed<Expr>, Boxed<Expr>, Boxed<Expr>),
}

/// A key of a record with its value.
#[cycle(tree)]
#[derive(Drop)]
pub struct Member {
    pub key: Text,
    pub value: Expr,
}

/// A step into a value.
#[cycle(tree)]
#[derive(Drop)]
pub enum PathStep {
    /// `.name`
    Field(Text),
    /// `[index]`
    At(Expr),
}

/// An operator's sign with the part at its right.
#[cycle(tree)]
#[derive(Drop)]
pub struct Operand {
    pub sign: Sign,
    pub expr: Expr,
}

/// Statements in brackets, which are the scope of their `let`s.
#[cycle(statements)]
#[derive(Drop)]
pub struct Block {
    pub stmts: Items<Stmt>,
}

/// A test of an `if` with the block that is run where it is true.
#[cycle(statements)]
#[derive(Drop)]
pub struct Arm {
    pub test: Expr,
    pub body: Block,
}

/// A statement.
#[cycle(statements)]
#[derive(Drop)]
pub enum Stmt {
    /// `let name = value;`
    Let(Text, Expr),
    /// `name = value;`
    Assign(Text, Expr),
    /// At least one arm, then the block of the last `else`, if there is one.
    If(Items<Arm>, Option<Block>),
    While(Expr, Block),
    /// `for (let name of list) {..}`
    For(Text, Expr, Block),
    Yield(Expr),
    Return(Expr),
    Throw(Expr),
    Cleanup(Expr),
}

/// What a cell computes.
#[derive(Drop)]
pub enum Body {
    Expr(Expr),
    /// In a cell that was read it has at least one statement.
    Block(Block),
}

/// A cell, with the name that it defines, if it defines one.
#[derive(Drop)]
pub struct Cell {
    pub name: Option<Text>,
    pub body: Body,
}

/// A cell shows its name alone.
impl fmt::Debug for Cell {
    fn fmt<W: fmt::Write>(&self, f: &mut fmt::Formatter<W>) -> fmt::Result {
        f.debug_struct("Cell")
            .field("name", &self.name)
            .finish_non_exhaustive()
    }
}
