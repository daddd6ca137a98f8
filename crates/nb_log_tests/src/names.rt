//! What names stand for, and what variables rest on.
use nb_derive::apply;
use nb_resolve::{Resolution, inputs, is_duplicate, resolve};
use nb_sheet::{Edit, Sheet};
use nb_syntax::{Body, Cell, Expr};
use nb_value::{Pairs, Text, Value};
use std::alloc::{AllocError, Global};
use std::mem::drop;
use std::test::Fail;

// An edit.
#[derive(Clone, Copy)]
enum Act {
    Module,
    /// The cell `name = 1` of a module.
    Number(u32, &'static str),
    /// The cell `name = other` of module 0.
    Name(&'static str, &'static str),
    /// The variable imports the name of module 1 as the alias.
    Import(u32, &'static str, &'static str),
    Delete(u32),
}

// Edits that are done, and then what names of modules stand for, how many inputs variables have with what the first
// stands for, and whether variables are duplicates.
struct Step {
    acts: &'static [Act],
    names: &'static [(u32, &'static str, Resolution)],
    inputs: &'static [(u32, usize, Resolution)],
    duplicates: &'static [(u32, bool)],
}

const NONE: Step = Step {
    acts: &[],
    names: &[],
    inputs: &[],
    duplicates: &[],
};

const VARIABLES_OF_A_NAME: &[Step] = &[
    Step {
        acts: &[
            Act::Number(0, "x"),
            Act::Number(0, "x"),
            Act::Name("y", "x"),
        ],
        names: &[(0, "x", Resolution::Twice)],
        inputs: &[(3, 1, Resolution::Twice)],
        ..NONE
    },
    Step {
        acts: &[Act::Delete(2)],
        names: &[(0, "x", Resolution::Var(1))],
        inputs: &[(3, 1, Resolution::Var(1))],
        ..NONE
    },
];

const BUILTINS_AND_OTHER_MODULES: &[Step] = &[
    Step {
        names: &[
            (0, "pi", Resolution::Builtin(0)),
            (9, "pi", Resolution::Builtin(0)),
            (0, "x", Resolution::Missing),
        ],
        ..NONE
    },
    Step {
        acts: &[Act::Module, Act::Number(0, "pi"), Act::Number(1, "x")],
        names: &[
            (0, "pi", Resolution::Var(1)),
            (1, "pi", Resolution::Builtin(0)),
            (0, "x", Resolution::Missing),
            (1, "x", Resolution::Var(2)),
        ],
        ..NONE
    },
];

const IMPORTS_AND_DUPLICATES: &[Step] = &[
    Step {
        acts: &[
            Act::Module,
            Act::Number(1, "x"),
            Act::Number(0, "x"),
            Act::Number(0, "z"),
            Act::Import(3, "x", "z"),
        ],
        inputs: &[(3, 1, Resolution::Var(1))],
        ..NONE
    },
    Step {
        acts: &[Act::Name("z", "x")],
        inputs: &[(4, 0, Resolution::Missing), (9, 0, Resolution::Missing)],
        duplicates: &[(2, false), (3, true), (4, true)],
        ..NONE
    },
];

fn cell(alloc: Global, name: &str, expr: Expr) -> Result<Cell, AllocError> {
    let own = Text::from_str(alloc, name)?;
    Ok(Cell {
        name: Some(own),
        body: Body::Expr(expr),
    })
}

fn import(alloc: Global, variable: u32, name: &str, alias: &str) -> Result<Edit, AllocError> {
    let name = Text::from_str(alloc, name)?;
    let alias = Text::from_str(alloc, alias)?;
    Ok(Edit::Import {
        variable,
        name,
        alias,
        from: 1,
    })
}

fn edit_of(alloc: Global, act: Act) -> Result<Edit, AllocError> {
    match act {
        Act::Module => Ok(Edit::AddModule),
        Act::Number(module, name) => Ok(Edit::AddCell {
            module,
            cell: cell(alloc, name, Expr::Int(1))?,
            observed: true,
        }),
        Act::Name(name, other) => Ok(Edit::AddCell {
            module: 0,
            cell: cell(alloc, name, Expr::Name(Text::from_str(alloc, other)?))?,
            observed: true,
        }),
        Act::Import(variable, name, alias) => import(alloc, variable, name, alias),
        Act::Delete(variable) => Ok(Edit::Delete { variable }),
    }
}

// Whether the edit is done.
fn take(alloc: Global, sheet: &mut Sheet, edit: Edit) -> Result<bool, AllocError> {
    let answer = match sheet.check(&edit) {
        Err(_) => Ok(false),
        Ok(()) => apply(alloc, sheet, &edit, 1).map(|_| true),
    };
    drop(edit);
    answer
}

fn all_done(alloc: Global, sheet: &mut Sheet, acts: &[Act]) -> Result<bool, AllocError> {
    for act in acts {
        let edit = edit_of(alloc, *act)?;
        if !take(alloc, sheet, edit)? {
            return Ok(false);
        }
    }
    Ok(true)
}

// How many inputs a variable has, and what the first stands for.
fn rests_on(alloc: Global, sheet: &Sheet, var: u32) -> Result<(usize, Resolution), AllocError> {
    let found = inputs(alloc, sheet, var)?;
    let first = match found.first() {
        None => Resolution::Missing,
        Some(input) => input.resolution(),
    };
    Ok((found.len(), first))
}

fn have_inputs(
    alloc: Global,
    sheet: &Sheet,
    wanted: &[(u32, usize, Resolution)],
) -> Result<bool, AllocError> {
    for (var, count, first) in wanted {
        if rests_on(alloc, sheet, *var)? != (*count, *first) {
            return Ok(false);
        }
    }
    Ok(true)
}

// Whether the edits are done, and all is then as the step says.
fn comes_out(alloc: Global, sheet: &mut Sheet, step: &Step) -> Result<bool, AllocError> {
    let done = all_done(alloc, sheet, step.acts)?;
    let named = step.names.iter().all(|(module, name, wanted)| resolve(sheet, *module, name)
        == *wanted);
    let duplicates = step
        .duplicates
        .iter()
        .all(|(var, wanted)| is_duplicate(sheet, *var) == *wanted);
    Ok(have_inputs(alloc, sheet, step.inputs)? && done && named && duplicates)
}

fn all_come_out(alloc: Global, sheet: &mut Sheet, steps: &[Step]) -> Result<bool, AllocError> {
    for step in steps {
        if !comes_out(alloc, sheet, step)? {
            return Ok(false);
        }
    }
    Ok(true)
}

// A sheet over the builtin `pi`.
fn with_pi(alloc: Global) -> Result<Sheet, Fail> {
    let mut builtins = Pairs::new(alloc);
    builtins.put(Text::from_str(alloc, "pi")?, Value::Int(3))?;
    if builtins.len() > 65536 {
        return Err("too many builtins".into());
    }
    Ok(Sheet::new(alloc, builtins)?)
}

// Whether the steps come out over the builtin `pi`.
fn plays(alloc: Global, steps: &[Step]) -> Result<bool, Fail> {
    let mut sheet = with_pi(alloc)?;
    let come_out = all_come_out(alloc, &mut sheet, steps);
    drop(sheet);
    Ok(come_out?)
}

#[test]
fn names_come_out(rt: HostRuntime) -> Result<(), Fail> {
    let tables = [
        VARIABLES_OF_A_NAME,
        BUILTINS_AND_OTHER_MODULES,
        IMPORTS_AND_DUPLICATES,
    ];
    for (i, steps) in tables.iter().enumerate() {
        assert!(rt; plays(rt.alloc(), steps)?, "table {i}");
    }
    Ok(())
}
