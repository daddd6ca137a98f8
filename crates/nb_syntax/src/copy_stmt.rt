//! Copies of blocks and statements, and whether two are one.

ghost use Rattle.std.specs.Prelude.{◌≡◌, ◌↔◌, IfOk, IsTrue};

use crate::tree::{Arm, Block, Stmt};
use nb_value::{Items, Tree};
use std::alloc::{AllocError, Global};

impl Tree for Block {
    #[cycle(copy_statements)]
    fn copy(&self, alloc: Global) -> Result<Block, AllocError> {
        Ok(Block {
            stmts: copy_stmts(&self.stmts, alloc)?,
        })
    }

    #[cycle(same_statements)]
    fn same(&self, other: &Block) -> bool {
        same_stmts(&self.stmts, &other.stmts)
    }
}

impl Tree for Arm {
    #[cycle(copy_statements)]
    fn copy(&self, alloc: Global) -> Result<Arm, AllocError> {
        let body = self.body.copy(alloc)?;
        Ok(Arm {
            test: self.test.copy(alloc)?,
            body,
        })
    }

    #[cycle(same_statements)]
    fn same(&self, other: &Arm) -> bool {
        self.test.same(&other.test) && self.body.same(&other.body)
    }
}

impl Tree for Stmt {
    #[cycle(copy_statements)]
    fn copy(&self, alloc: Global) -> Result<Stmt, AllocError> {
        match self {
            Stmt::Let(name, value) => Ok(Stmt::Let(name.copy(alloc)?, value.copy(alloc)?)),
            Stmt::Assign(name, value) => Ok(Stmt::Assign(name.copy(alloc)?, value.copy(alloc)?)),
            Stmt::If(arms, other) => match other {
                None => Ok(Stmt::If(copy_arms(arms, alloc)?, None)),
                Some(block) => Ok(Stmt::If(copy_arms(arms, alloc)?, Some(block.copy(alloc)?))),
            },
            Stmt::While(test, body) => {
                let body = body.copy(alloc)?;
                Ok(Stmt::While(test.copy(alloc)?, body))
            }
            Stmt::For(name, list, body) => {
                let name = name.copy(alloc)?;
                let body = body.copy(alloc)?;
                Ok(Stmt::For(name, list.copy(alloc)?, body))
            }
            Stmt::Yield(value) => Ok(Stmt::Yield(value.copy(alloc)?)),
            Stmt::Return(value) => Ok(Stmt::Return(value.copy(alloc)?)),
            Stmt::Throw(value) => Ok(Stmt::Throw(value.copy(alloc)?)),
            Stmt::Cleanup(value) => Ok(Stmt::Cleanup(value.copy(alloc)?)),
        }
    }

    #[cycle(same_statements)]
    fn same(&self, other: &Stmt) -> bool {
        match (self, other) {
            (Stmt::Let(a, b), Stmt::Let(c, d)) => a.same(c) && b.same(d),
            (Stmt::Assign(a, b), Stmt::Assign(c, d)) => a.same(c) && b.same(d),
            (Stmt::If(a, b), Stmt::If(c, d)) => match (b, d) {
                (None, None) => same_arms(a, c),
                (Some(b), Some(d)) => same_arms(a, c) && b.same(d),
                _ => false,
            },
            (Stmt::While(a, b), Stmt::While(c, d)) => a.same(c) && b.same(d),
            (Stmt::For(a, b, c), Stmt::For(d, e, f)) => a.same(d) && b.same(e) && c.same(f),
            (Stmt::Yield(a), Stmt::Yield(b)) => a.same(b),
            (Stmt::Return(a), Stmt::Return(b)) => a.same(b),
            (Stmt::Throw(a), Stmt::Throw(b)) => a.same(b),
            (Stmt::Cleanup(a), Stmt::Cleanup(b)) => a.same(b),
            _ => false,
        }
    }
}

#[cycle(copy_statements)]
fn copy_stmts(stmts: &Items<Stmt>, alloc: Global) -> Result<Items<Stmt>, AllocError>
    ensures { IfOk result (λ v. v ≡ stmts.now) }
{
    let mut copies = Items::new(alloc);
    for stmt in stmts.as_slice() {
        copies.push(stmt.copy(alloc)?)?;
    }
    Ok(copies)
}

#[cycle(copy_statements)]
fn copy_arms(arms: &Items<Arm>, alloc: Global) -> Result<Items<Arm>, AllocError>
    ensures { IfOk result (λ v. v ≡ arms.now) }
{
    let mut copies = Items::new(alloc);
    for arm in arms.as_slice() {
        copies.push(arm.copy(alloc)?)?;
    }
    Ok(copies)
}

#[cycle(same_statements)]
fn same_stmts(stmts: &Items<Stmt>, other: &Items<Stmt>) -> bool
    ensures { IsTrue result ↔ (stmts.now ≡ other.now) }
{
    let xs = stmts.as_slice();
    let ys = other.as_slice();
    if xs.len() != ys.len() {
        return false;
    }
    for i in 0..xs.len() {
        if !xs[i].same(&ys[i]) {
            return false;
        }
    }
    true
}

#[cycle(same_statements)]
fn same_arms(arms: &Items<Arm>, other: &Items<Arm>) -> bool
    ensures { IsTrue result ↔ (arms.now ≡ other.now) }
{
    let xs = arms.as_slice();
    let ys = other.as_slice();
    if xs.len() != ys.len() {
        return false;
    }
    for i in 0..xs.len() {
        if !xs[i].same(&ys[i]) {
            return false;
        }
    }
    true
}
