//! Copies of cells and expressions, and whether two are one.

ghost use Rattle.std.specs.Prelude.{◌≡◌, ◌↔◌, IfOk, IsTrue};

use crate::tree::{Body, Cell, Expr, Member, Operand, PathStep};
use nb_value::{Boxed, Items, Tree};
use std::alloc::{AllocError, Global};

impl Cell {
    /// An equal cell.
    pub fn copy(&self, alloc: Global) -> Result<Cell, AllocError>
        ensures { IfOk result (λ v. v ≡ self.now) }
    {
        Ok(Cell {
            name: self.name.copy(alloc)?,
            body: self.body.copy(alloc)?,
        })
    }

    /// Whether the two are one cell. It takes no memory.
    pub fn same(&self, other: &Cell) -> bool
        ensures { IsTrue result ↔ (self.now ≡ other.now) }
    {
        self.name.same(&other.name) && self.body.same(&other.body)
    }
}

impl Tree for Cell {
    fn copy(&self, alloc: Global) -> Result<Cell, AllocError> {
        Cell::copy(self, alloc)
    }

    fn same(&self, other: &Cell) -> bool {
        Cell::same(self, other)
    }
}

impl Tree for Body {
    fn copy(&self, alloc: Global) -> Result<Body, AllocError> {
        match self {
            Body::Expr(expr) => Ok(Body::Expr(expr.copy(alloc)?)),
            Body::Block(block) => Ok(Body::Block(block.copy(alloc)?)),
        }
    }

    fn same(&self, other: &Body) -> bool {
        match (self, other) {
            (Body::Expr(a), Body::Expr(b)) => a.same(b),
            (Body::Block(a), Body::Block(b)) => a.same(b),
            _ => false,
        }
    }
}

impl Tree for Expr {
    #[cycle(copy)]
    fn copy(&self, alloc: Global) -> Result<Expr, AllocError> {
        match self {
            Expr::Int(n) => Ok(Expr::Int(*n)),
            Expr::Quoted(text) => Ok(Expr::Quoted(text.copy(alloc)?)),
            Expr::Bool(b) => Ok(Expr::Bool(*b)),
            Expr::Null => Ok(Expr::Null),
            Expr::Name(name) => Ok(Expr::Name(name.copy(alloc)?)),
            Expr::List(items) => Ok(Expr::List(copy_exprs(items, alloc)?)),
            Expr::Rec(members) => Ok(Expr::Rec(copy_members(members, alloc)?)),
            Expr::Call(function, args) => Ok(Expr::Call(*function, copy_exprs(args, alloc)?)),
            Expr::Fetch(key) => Ok(Expr::Fetch(copy_boxed(key, alloc)?)),
            Expr::Path(root, steps) => Ok(Expr::Path(
                copy_boxed(root, alloc)?,
                copy_steps(steps, alloc)?,
            )),
            Expr::Unary(sign, a) => Ok(Expr::Unary(*sign, copy_boxed(a, alloc)?)),
            Expr::Product(a, more) => Ok(Expr::Product(
                copy_boxed(a, alloc)?,
                copy_operands(more, alloc)?,
            )),
            Expr::Sum(a, more) => Ok(Expr::Sum(copy_boxed(a, alloc)?, copy_operands(more, alloc)?)),
            Expr::Compare(sign, a, b) => {
                Ok(Expr::Compare(*sign, copy_boxed(a, alloc)?, copy_boxed(b, alloc)?))
            }
            Expr::And(parts) => Ok(Expr::And(copy_exprs(parts, alloc)?)),
            Expr::Or(parts) => Ok(Expr::Or(copy_exprs(parts, alloc)?)),
            Expr::Choose(a, b, c) => {
                Ok(Expr::Choose(
                    copy_boxed(a, alloc)?,
                    copy_boxed(b, alloc)?,
                    copy_boxed(c, alloc)?,
                ))
            }
        }
    }

    #[cycle(same)]
    fn same(&self, other: &Expr) -> bool {
        match (self, other) {
            (Expr::Int(a), Expr::Int(b)) => *a == *b,
            (Expr::Quoted(a), Expr::Quoted(b)) => a.same(b),
            (Expr::Bool(a), Expr::Bool(b)) => *a == *b,
            (Expr::Null, Expr::Null) => true,
            (Expr::Name(a), Expr::Name(b)) => a.same(b),
            (Expr::List(a), Expr::List(b)) => same_exprs(a, b),
            (Expr::Rec(a), Expr::Rec(b)) => same_members(a, b),
            (Expr::Call(f, a), Expr::Call(g, b)) => *f == *g && same_exprs(a, b),
            (Expr::Fetch(a), Expr::Fetch(b)) => a.get().same(b.get()),
            (Expr::Path(a, s), Expr::Path(b, t)) => a.get().same(b.get()) && same_steps(s, t),
            (Expr::Unary(s, a), Expr::Unary(t, b)) => *s == *t && a.get().same(b.get()),
            (Expr::Product(a, s), Expr::Product(b, t)) => a.get().same(b.get())
                && same_operands(s, t),
            (Expr::Sum(a, s), Expr::Sum(b, t)) => a.get().same(b.get()) && same_operands(s, t),
            (Expr::Compare(s, a, b), Expr::Compare(t, c, d)) => {
                *s == *t && a.get().same(c.get()) && b.get().same(d.get())
            }
            (Expr::And(a), Expr::And(b)) => same_exprs(a, b),
            (Expr::Or(a), Expr::Or(b)) => same_exprs(a, b),
            (Expr::Choose(a, b, c), Expr::Choose(d, e, f)) => {
                a.get().same(d.get()) && b.get().same(e.get()) && c.get().same(f.get())
            }
            _ => false,
        }
    }
}

impl Tree for Member {
    #[cycle(copy)]
    fn copy(&self, alloc: Global) -> Result<Member, AllocError> {
        Ok(Member {
            key: self.key.copy(alloc)?,
            value: self.value.copy(alloc)?,
        })
    }

    #[cycle(same)]
    fn same(&self, other: &Member) -> bool {
        self.key.same(&other.key) && self.value.same(&other.value)
    }
}

impl Tree for PathStep {
    #[cycle(copy)]
    fn copy(&self, alloc: Global) -> Result<PathStep, AllocError> {
        match self {
            PathStep::Field(name) => Ok(PathStep::Field(name.copy(alloc)?)),
            PathStep::At(index) => Ok(PathStep::At(index.copy(alloc)?)),
        }
    }

    #[cycle(same)]
    fn same(&self, other: &PathStep) -> bool {
        match (self, other) {
            (PathStep::Field(a), PathStep::Field(b)) => a.same(b),
            (PathStep::At(a), PathStep::At(b)) => a.same(b),
            _ => false,
        }
    }
}

impl Tree for Operand {
    #[cycle(copy)]
    fn copy(&self, alloc: Global) -> Result<Operand, AllocError> {
        Ok(Operand {
            sign: self.sign,
            expr: self.expr.copy(alloc)?,
        })
    }

    #[cycle(same)]
    fn same(&self, other: &Operand) -> bool {
        self.sign == other.sign && self.expr.same(&other.expr)
    }
}

#[cycle(copy)]
fn copy_boxed(boxed: &Boxed<Expr>, alloc: Global) -> Result<Boxed<Expr>, AllocError>
    ensures { IfOk result (λ v. v ≡ boxed.now) }
{
    Boxed::new(alloc, boxed.get().copy(alloc)?)
}

#[cycle(copy)]
fn copy_exprs(exprs: &Items<Expr>, alloc: Global) -> Result<Items<Expr>, AllocError>
    ensures { IfOk result (λ v. v ≡ exprs.now) }
{
    let mut copies = Items::new(alloc);
    for expr in exprs.as_slice() {
        copies.push(expr.copy(alloc)?)?;
    }
    Ok(copies)
}

#[cycle(copy)]
fn copy_members(members: &Items<Member>, alloc: Global) -> Result<Items<Member>, AllocError>
    ensures { IfOk result (λ v. v ≡ members.now) }
{
    let mut copies = Items::new(alloc);
    for member in members.as_slice() {
        copies.push(member.copy(alloc)?)?;
    }
    Ok(copies)
}

#[cycle(copy)]
fn copy_operands(operands: &Items<Operand>, alloc: Global) -> Result<Items<Operand>, AllocError>
    ensures { IfOk result (λ v. v ≡ operands.now) }
{
    let mut copies = Items::new(alloc);
    for operand in operands.as_slice() {
        copies.push(operand.copy(alloc)?)?;
    }
    Ok(copies)
}

#[cycle(copy)]
fn copy_steps(steps: &Items<PathStep>, alloc: Global) -> Result<Items<PathStep>, AllocError>
    ensures { IfOk result (λ v. v ≡ steps.now) }
{
    let mut copies = Items::new(alloc);
    for step in steps.as_slice() {
        copies.push(step.copy(alloc)?)?;
    }
    Ok(copies)
}

#[cycle(same)]
fn same_exprs(exprs: &Items<Expr>, other: &Items<Expr>) -> bool
    ensures { IsTrue result ↔ (exprs.now ≡ other.now) }
{
    let xs = exprs.as_slice();
    let ys = other.as_slice();
    if xs.len() != ys.len() {
        return false;
    }
    for i in 0..xs.len() {
        if !xs[i].same(&ys[i]) {
            return false;
        }
    }
    true
}

#[cycle(same)]
fn same_members(members: &Items<Member>, other: &Items<Member>) -> bool
    ensures { IsTrue result ↔ (members.now ≡ other.now) }
{
    let xs = members.as_slice();
    let ys = other.as_slice();
    if xs.len() != ys.len() {
        return false;
    }
    for i in 0..xs.len() {
        if !xs[i].same(&ys[i]) {
            return false;
        }
    }
    true
}

#[cycle(same)]
fn same_operands(operands: &Items<Operand>, other: &Items<Operand>) -> bool
    ensures { IsTrue result ↔ (operands.now ≡ other.now) }
{
    let xs = operands.as_slice();
    let ys = other.as_slice();
    if xs.len() != ys.len() {
        return false;
    }
    for i in 0..xs.len() {
        if !xs[i].same(&ys[i]) {
            return false;
        }
    }
    true
}

#[cycle(same)]
fn same_steps(steps: &Items<PathStep>, other: &Items<PathStep>) -> bool
    ensures { IsTrue result ↔ (steps.now ≡ other.now) }
{
    let xs = steps.as_slice();
    let ys = other.as_slice();
    if xs.len() != ys.len() {
        return false;
    }
    for i in 0..xs.len() {
        if !xs[i].same(&ys[i]) {
            return false;
        }
    }
    true
}
