use nb_syntax::Cell;
use nb_value::Text;

/// What defines a variable: a cell, or a variable of another module under its name there.
#[derive(Debug, Drop)]
pub enum BodyOf {
    Cell(Cell),
    Import { name: Text, from: u32 },
}

/// A variable's row. Its number is its position, counted from 1.
#[derive(Debug, Drop)]
pub struct VarRow {
    pub module: u32,
    pub observed: bool,
    pub name: Option<Text>,
    pub body: Option<BodyOf>,
    /// The place of the edit that gave the body, and 0 without a body.
    pub place: u64,
}
