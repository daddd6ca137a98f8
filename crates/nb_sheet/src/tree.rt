//! Copies of edits and bodies, and whether two are one.

ghost use Rattle.std.specs.Prelude.{◌≡◌, ◌↔◌, IsTrue};

use crate::edit::{Edit, Specifier, Specifiers};
use crate::row::BodyOf;
use nb_value::{Text, Tree};
use std::alloc::{AllocError, Global};

impl Tree for BodyOf {
    fn copy(&self, alloc: Global) -> Result<BodyOf, AllocError> {
        match self {
            BodyOf::Cell(cell) => Ok(BodyOf::Cell(cell.copy(alloc)?)),
            BodyOf::Import { name, from } => Ok(BodyOf::Import {
                name: name.copy(alloc)?,
                from: *from,
            }),
        }
    }

    fn same(&self, other: &BodyOf) -> bool {
        match (self, other) {
            (BodyOf::Cell(a), BodyOf::Cell(b)) => a.same(b),
            (BodyOf::Import { name: a, from: m }, BodyOf::Import { name: b, from: n }) => {
                *m == *n && a.same(b)
            }
            _ => false,
        }
    }
}

impl Tree for Specifier {
    fn copy(&self, alloc: Global) -> Result<Specifier, AllocError> {
        Ok(Specifier {
            name: self.name.copy(alloc)?,
            alias: self.alias.copy(alloc)?,
        })
    }

    fn same(&self, other: &Specifier) -> bool {
        self.name.same(&other.name) && self.alias.same(&other.alias)
    }
}

/// Whether an edit is this import.
fn is_import(edit: &Edit, v: u32, remote: &Text, own: &Text, k: u32) -> bool
    ensures { IsTrue result ↔ (edit.now ≡ Edit.Import v remote.now own.now k) }
{
    match edit {
        Edit::Import {
            variable,
            name,
            alias,
            from,
        } => *variable == v && *from == k && name.same(remote) && alias.same(own),
        _ => false,
    }
}

/// Whether an edit is this derive.
fn is_derive(edit: &Edit, within: u32, specifiers: &Specifiers, from: u32) -> bool
    ensures { IsTrue result ↔ (edit.now ≡ Edit.Derive within specifiers.now from) }
{
    match edit {
        Edit::Derive {
            module,
            with,
            source,
        } => *module == within && *source == from && with.same(specifiers),
        _ => false,
    }
}

impl Tree for Edit {
    fn copy(&self, alloc: Global) -> Result<Edit, AllocError> {
        match self {
            Edit::AddModule => Ok(Edit::AddModule),
            Edit::AddVariable { module, observed } => Ok(Edit::AddVariable {
                module: *module,
                observed: *observed,
            }),
            Edit::AddCell {
                module,
                cell,
                observed,
            } => Ok(Edit::AddCell {
                module: *module,
                cell: cell.copy(alloc)?,
                observed: *observed,
            }),
            Edit::Define { variable, cell } => Ok(Edit::Define {
                variable: *variable,
                cell: cell.copy(alloc)?,
            }),
            Edit::Import {
                variable,
                name,
                alias,
                from,
            } => Ok(Edit::Import {
                variable: *variable,
                name: name.copy(alloc)?,
                alias: alias.copy(alloc)?,
                from: *from,
            }),
            Edit::Delete { variable } => Ok(Edit::Delete {
                variable: *variable,
            }),
            Edit::Redefine { module, cell } => Ok(Edit::Redefine {
                module: *module,
                cell: cell.copy(alloc)?,
            }),
            Edit::Derive {
                module,
                with,
                source,
            } => Ok(Edit::Derive {
                module: *module,
                with: with.copy(alloc)?,
                source: *source,
            }),
        }
    }

    fn same(&self, other: &Edit) -> bool {
        match (self, other) {
            (Edit::AddModule, Edit::AddModule) => true,
            (
                Edit::AddVariable {
                    module: m,
                    observed: s,
                },
                Edit::AddVariable {
                    module: n,
                    observed: t,
                },
            ) => *m == *n && *s == *t,
            (
                Edit::AddCell {
                    module: m,
                    cell: a,
                    observed: s,
                },
                Edit::AddCell {
                    module: n,
                    cell: b,
                    observed: t,
                },
            ) => *m == *n && *s == *t && a.same(b),
            (
                Edit::Define {
                    variable: v,
                    cell: a,
                },
                Edit::Define {
                    variable: w,
                    cell: b,
                },
            ) => { *v == *w && a.same(b) }
            (
                Edit::Import {
                    variable,
                    name,
                    alias,
                    from,
                },
                other,
            ) => is_import(other, *variable, name, alias, *from),
            (Edit::Delete { variable: v }, Edit::Delete { variable: w }) => *v == *w,
            (Edit::Redefine { module: m, cell: a }, Edit::Redefine { module: n, cell: b }) => {
                *m == *n && a.same(b)
            }
            (
                Edit::Derive {
                    module,
                    with,
                    source,
                },
                other,
            ) => is_derive(other, *module, with, *source),
            _ => false,
        }
    }
}
