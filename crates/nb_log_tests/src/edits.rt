//! Edits of a sheet, and the reasons against them.
use nb_derive::apply;
use nb_sheet::{BodyOf, Edit, Sheet};
use nb_syntax::{Body, Cell, Expr};
use nb_value::{Pairs, Text};
use std::alloc::{AllocError, Global};
use std::mem::drop;
use std::test::Fail;

// An edit. A cell is a number under its name, or under none.
#[derive(Clone, Copy)]
enum Act {
    Module,
    Variable(u32),
    Cell(u32, &'static str),
    Define(u32, &'static str),
    /// The variable stands for `name` of this module, as `alias`.
    Import(u32, u32),
    Delete(u32),
    Redefine(u32, &'static str),
}

// A variable's name, its body and its place. The body is a cell, an import of a module's variable, or none.
type Row = (&'static str, (&'static str, u32), u64);

// An edit that is made so many times at a place, the reason against it or 0, and how variables stand behind it.
struct Step {
    act: Act,
    times: u32,
    place: u64,
    reason: u32,
    rows: &'static [(u32, Row)],
}

// The edit is done, at place 1.
const DONE: Step = Step {
    act: Act::Module,
    times: 1,
    place: 1,
    reason: 0,
    rows: &[],
};

const CELLS_DEFINE_VARIABLES: &[Step] = &[
    DONE,
    Step {
        act: Act::Cell(0, "x"),
        place: 2,
        ..DONE
    },
    Step {
        act: Act::Variable(1),
        rows: &[(1, ("x", ("cell", 0), 2)), (2, ("", ("", 0), 0))],
        ..DONE
    },
    Step {
        act: Act::Define(2, "x"),
        place: 5,
        ..DONE
    },
    Step {
        act: Act::Redefine(0, "x"),
        place: 6,
        rows: &[(1, ("x", ("cell", 0), 6)), (2, ("x", ("cell", 0), 5))],
        ..DONE
    },
];

const IMPORTS_AND_DELETES: &[Step] = &[
    Step {
        act: Act::Cell(0, "x"),
        ..DONE
    },
    Step {
        act: Act::Import(1, 0),
        place: 7,
        rows: &[(1, ("alias", ("name", 0), 7))],
        ..DONE
    },
    Step {
        act: Act::Delete(1),
        place: 8,
        rows: &[(1, ("", ("", 0), 0)), (2, ("no variable", ("", 0), 0))],
        ..DONE
    },
];

const REASONS_IN_ORDER: &[Step] = &[
    Step {
        act: Act::Cell(0, "x"),
        reason: 0,
        ..DONE
    },
    Step {
        act: Act::Cell(1, "x"),
        reason: 1,
        ..DONE
    },
    Step {
        act: Act::Variable(1),
        reason: 1,
        ..DONE
    },
    Step {
        act: Act::Define(0, "x"),
        reason: 2,
        ..DONE
    },
    Step {
        act: Act::Define(2, "x"),
        reason: 2,
        ..DONE
    },
    Step {
        act: Act::Import(2, 1),
        reason: 1,
        ..DONE
    },
    Step {
        act: Act::Import(2, 0),
        reason: 2,
        ..DONE
    },
    Step {
        act: Act::Delete(2),
        reason: 2,
        ..DONE
    },
    Step {
        act: Act::Redefine(1, "y"),
        reason: 1,
        ..DONE
    },
    Step {
        act: Act::Redefine(0, "y"),
        reason: 5,
        ..DONE
    },
    Step {
        act: Act::Redefine(0, ""),
        reason: 5,
        ..DONE
    },
    Step {
        act: Act::Cell(0, "x"),
        reason: 0,
        ..DONE
    },
    Step {
        act: Act::Redefine(0, "x"),
        reason: 6,
        rows: &[(1, ("x", ("cell", 0), 1))],
        ..DONE
    },
];

const LIMITS: &[Step] = &[
    Step { times: 63, ..DONE },
    Step {
        act: Act::Module,
        reason: 3,
        ..DONE
    },
    Step {
        act: Act::Variable(63),
        times: 1024,
        ..DONE
    },
    Step {
        act: Act::Variable(63),
        reason: 4,
        ..DONE
    },
    Step {
        act: Act::Variable(64),
        reason: 1,
        ..DONE
    },
];

// The cell `name = 1`, or `1` for no name.
fn cell(alloc: Global, name: &str) -> Result<Cell, AllocError> {
    let mut own = None;
    if !name.is_empty() {
        own = Some(Text::from_str(alloc, name)?);
    }
    Ok(Cell {
        name: own,
        body: Body::Expr(Expr::Int(1)),
    })
}

fn import(alloc: Global, variable: u32, from: u32) -> Result<Edit, AllocError> {
    let name = Text::from_str(alloc, "name")?;
    let alias = Text::from_str(alloc, "alias")?;
    Ok(Edit::Import {
        variable,
        name,
        alias,
        from,
    })
}

fn edit_of(alloc: Global, act: Act) -> Result<Edit, AllocError> {
    match act {
        Act::Module => Ok(Edit::AddModule),
        Act::Variable(module) => Ok(Edit::AddVariable {
            module,
            observed: false,
        }),
        Act::Cell(module, name) => Ok(Edit::AddCell {
            module,
            cell: cell(alloc, name)?,
            observed: true,
        }),
        Act::Define(variable, name) => Ok(Edit::Define {
            variable,
            cell: cell(alloc, name)?,
        }),
        Act::Import(variable, from) => import(alloc, variable, from),
        Act::Delete(variable) => Ok(Edit::Delete { variable }),
        Act::Redefine(module, name) => Ok(Edit::Redefine {
            module,
            cell: cell(alloc, name)?,
        }),
    }
}

// 0 where the edit is done, and otherwise the number of the reason against it.
fn take(alloc: Global, sheet: &mut Sheet, edit: Edit, place: u64) -> Result<u32, AllocError> {
    let answer = match sheet.check(&edit) {
        Err(reason) => Ok(reason as u32),
        Ok(()) => apply(alloc, sheet, &edit, place).map(|_| 0),
    };
    drop(edit);
    answer
}

fn body(body: &Option<BodyOf>) -> (&str, u32) {
    match body {
        Some(BodyOf::Cell(_)) => ("cell", 0),
        Some(BodyOf::Import { name, from }) => (name.as_str(), *from),
        None => ("", 0),
    }
}

fn shown(sheet: &Sheet, variable: u32) -> (&str, (&str, u32), u64) {
    match sheet.variable(variable) {
        None => ("no variable", ("", 0), 0),
        Some(row) => match &row.name {
            None => ("", body(&row.body), row.place),
            Some(name) => (name.as_str(), body(&row.body), row.place),
        },
    }
}

fn stand(sheet: &Sheet, rows: &[(u32, Row)]) -> bool {
    rows.iter()
        .all(|(variable, row)| shown(sheet, *variable) == *row)
}

// Whether the step comes out as it says.
fn comes_out(alloc: Global, sheet: &mut Sheet, step: &Step) -> Result<bool, AllocError> {
    for _ in 0..step.times {
        let edit = edit_of(alloc, step.act)?;
        if take(alloc, sheet, edit, step.place)? != step.reason {
            return Ok(false);
        }
    }
    Ok(stand(sheet, step.rows))
}

fn all_come_out(alloc: Global, sheet: &mut Sheet, steps: &[Step]) -> Result<bool, AllocError> {
    for step in steps {
        if !comes_out(alloc, sheet, step)? {
            return Ok(false);
        }
    }
    Ok(true)
}

// Whether an undo without a mark takes all edits back.
fn goes_back(sheet: &mut Sheet) -> bool {
    sheet.undo();
    sheet.modules() == 1 && sheet.rows().is_empty()
}

// Whether the steps come out on a new sheet, and are then taken back.
fn plays(alloc: Global, steps: &[Step]) -> Result<bool, AllocError> {
    let mut sheet = Sheet::new(alloc, Pairs::new(alloc))?;
    let come_out = all_come_out(alloc, &mut sheet, steps);
    let back = goes_back(&mut sheet);
    drop(sheet);
    Ok(come_out? && back)
}

#[test]
fn edits_come_out(rt: HostRuntime) -> Result<(), Fail> {
    let tables = [
        CELLS_DEFINE_VARIABLES,
        IMPORTS_AND_DELETES,
        REASONS_IN_ORDER,
        LIMITS,
    ];
    for (i, steps) in tables.iter().enumerate() {
        assert!(rt; plays(rt.alloc(), steps)?, "table {i}");
    }
    Ok(())
}
