//! Sheets with derived modules, row by row, and the copies that a derive makes.
use crate::acts::{Act, Is, Row, all_done, is_body, specifiers, stands};
use nb_derive::derived;
use nb_resolve::{Resolution, inputs};
use nb_sheet::{NewModule, NewVar, Sheet};
use nb_value::Pairs;
use std::alloc::{AllocError, Global};
use std::mem::drop;
use std::test::Fail;

/// A derived module: b is replaced, c copied.
pub const REPLACED: &[Act] = &[
    Act::Module,
    Act::Cell(0, "b = 2"),
    Act::Cell(0, "c = b * 10"),
    Act::Cell(1, "a = 5"),
    Act::Derive(0, &[("a", "b")], 1),
    Act::Variable(0, true),
    Act::Import(6, "c", "d", 2),
    Act::Redefine(1, "a = 7"),
    Act::Redefine(0, "b = 3"),
];

pub const REPLACED_ROWS: &[Row] = &[
    (0, false, "b", Is::Cell("b = 3"), 9),
    (0, false, "c", Is::Cell("c = b * 10"), 3),
    (1, false, "a", Is::Cell("a = 7"), 8),
    (2, false, "b", Is::From("a", 1), 5),
    (2, false, "c", Is::Cell("c = b * 10"), 5),
    (0, true, "d", Is::From("c", 2), 7),
];

/// A deep derived module: module 1 imports from module 2, which a derive made, so that module 2 is copied too.
pub const DEEP: &[Act] = &[
    Act::Cell(0, "n = 1"),
    Act::Cell(0, "v = n + 1"),
    Act::Module,
    Act::Cell(1, "n = 10"),
    Act::Derive(0, &[("n", "n")], 1),
    Act::Variable(1, false),
    Act::Import(6, "v", "v", 2),
    Act::Cell(1, "w = v * 2"),
    Act::Module,
    Act::Cell(3, "n = 100"),
    Act::Derive(1, &[("n", "n")], 3),
    Act::Variable(0, true),
    Act::Import(14, "w", "out", 4),
];

pub const DEEP_ROWS: &[Row] = &[
    (0, false, "n", Is::Cell("n = 1"), 1),
    (0, false, "v", Is::Cell("v = n + 1"), 2),
    (1, false, "n", Is::Cell("n = 10"), 4),
    (2, false, "n", Is::From("n", 1), 5),
    (2, false, "v", Is::Cell("v = n + 1"), 5),
    (1, false, "v", Is::From("v", 2), 7),
    (1, false, "w", Is::Cell("w = v * 2"), 8),
    (3, false, "n", Is::Cell("n = 100"), 10),
    (4, false, "n", Is::From("n", 3), 11),
    (4, false, "v", Is::From("v", 5), 11),
    (4, false, "w", Is::Cell("w = v * 2"), 11),
    (5, false, "n", Is::From("n", 4), 11),
    (5, false, "v", Is::Cell("v = n + 1"), 11),
    (0, true, "out", Is::From("w", 4), 13),
];

// Variables without a name or a body aren't copied, an import of a module that no derive made stays, an alias that the
// module doesn't have is added, and the import from the source stays one of a module that is copied.
const PASSED_OVER: &[Act] = &[
    Act::Module,
    Act::Cell(0, "1"),
    Act::Variable(0, false),
    Act::Cell(0, "x = 1"),
    Act::Variable(0, true),
    Act::Import(4, "far", "near", 1),
    Act::Derive(0, &[("more", "more")], 0),
];

const PASSED_OVER_ROWS: &[Row] = &[
    (0, false, "", Is::Cell("1"), 2),
    (0, false, "", Is::Nothing, 0),
    (0, false, "x", Is::Cell("x = 1"), 4),
    (0, true, "near", Is::From("far", 1), 6),
    (2, false, "more", Is::From("more", 0), 7),
    (2, false, "x", Is::Cell("x = 1"), 7),
    (2, false, "near", Is::From("far", 1), 7),
];

fn plays(
    alloc: Global,
    sheet: &mut Sheet,
    acts: &[Act],
    rows: &[Row],
    made: &[bool],
) -> Result<bool, Fail> {
    Ok(all_done(alloc, sheet, acts)? && stands(alloc, sheet, rows, made)?)
}

/// A sheet without builtins.
pub(crate) fn new_sheet(alloc: Global) -> Result<Sheet, AllocError> {
    let builtins = Pairs::new(alloc);
    Sheet::new(alloc, builtins)
}

// Whether the edits leave these rows on a new sheet, and these modules.
fn comes_out(alloc: Global, acts: &[Act], rows: &[Row], made: &[bool]) -> Result<bool, Fail> {
    let mut sheet = new_sheet(alloc)?;
    let answer = plays(alloc, &mut sheet, acts, rows, made);
    drop(sheet);
    answer
}

#[test]
fn derived_modules_come_out(rt: HostRuntime) -> Result<(), Fail> {
    let alloc = rt.alloc();
    assert!(rt; comes_out(alloc, REPLACED, REPLACED_ROWS, &[false, false, true])?);
    assert!(rt;
        comes_out(
            alloc,
            DEEP,
            DEEP_ROWS,
            &[false, false, true, false, true, true]
        )?
    );
    assert!(rt; comes_out(alloc, PASSED_OVER, PASSED_OVER_ROWS, &[false, false, true])?);
    Ok(())
}

// The copies of a derive of module 0, with a of module 1 as b.
const COPIES: &[(&str, Is)] = &[("b", Is::From("a", 1)), ("c", Is::Cell("c = b * 10"))];

fn are_variables(alloc: Global, variables: &[NewVar]) -> Result<bool, AllocError> {
    for (new, (name, is)) in variables.iter().zip(COPIES.iter()) {
        if new.name.as_str() != *name || !is_body(alloc, &new.body, is)? {
            return Ok(false);
        }
    }
    Ok(variables.len() == COPIES.len())
}

fn are_copies(alloc: Global, copies: &[NewModule]) -> Result<bool, AllocError> {
    match copies.first() {
        Some(copy) => Ok(are_variables(alloc, copy.variables.as_slice())? && copies.len() == 1),
        None => Ok(false),
    }
}

fn copies_come_out(alloc: Global, sheet: &Sheet) -> Result<bool, AllocError> {
    if sheet.modules() < 2 {
        return Ok(false);
    }
    let list = specifiers(alloc, &[("a", "b")])?;
    let copies = derived(alloc, sheet, 0, &list, 1);
    drop(list);
    let copies = copies?;
    let answer = are_copies(alloc, copies.as_slice());
    drop(copies);
    answer
}

// Whether variable 5 has b as its one input, which is variable 4.
fn copy_uses_copy(alloc: Global, sheet: &Sheet) -> Result<bool, AllocError> {
    let found = inputs(alloc, sheet, 5)?;
    let answer = match found.first() {
        Some(input) => input.name().as_str() == "b" && input.resolution() == Resolution::Var(4),
        None => false,
    };
    Ok(answer && found.len() == 1)
}

fn copies_and_inputs(alloc: Global, sheet: &mut Sheet) -> Result<bool, Fail> {
    let before = all_done(alloc, sheet, &REPLACED[..4])?;
    let copies = copies_come_out(alloc, sheet)?;
    let after = all_done(alloc, sheet, &REPLACED[4..7])?;
    Ok(before && copies && after && copy_uses_copy(alloc, sheet)?)
}

#[test]
fn copies_are_what_they_should_be(rt: HostRuntime) -> Result<(), Fail> {
    let mut sheet = new_sheet(rt.alloc())?;
    let answer = copies_and_inputs(rt.alloc(), &mut sheet);
    drop(sheet);
    assert!(rt; answer?);
    Ok(())
}
