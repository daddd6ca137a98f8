//! Edits that tests are told by, and sheets as they stand behind them.
use nb_derive::apply;
use nb_parser::parse_cell;
use nb_sheet::{BodyOf, Edit, Sheet, Specifier, Specifiers, VarRow};
use nb_syntax::{Cell, print};
use nb_value::{Items, Text};
use std::alloc::{AllocError, Global};
use std::mem::drop;
use std::test::Fail;

/// An edit. A cell is its text, and isn't observed.
#[derive(Clone, Copy)]
pub enum Act {
    Module,
    /// A variable of this module, observed or not.
    Variable(u32, bool),
    Cell(u32, &'static str),
    /// The variable stands for a name, under an alias, of a module.
    Import(u32, &'static str, &'static str, u32),
    Delete(u32),
    Redefine(u32, &'static str),
    /// A derive of a module, with names and aliases, from a source.
    Derive(u32, &'static [(&'static str, &'static str)], u32),
}

/// What a body is: the text of a cell, a name of a module, or none.
#[derive(Clone, Copy)]
pub enum Is {
    Cell(&'static str),
    From(&'static str, u32),
    Nothing,
}

/// A variable's module, whether it is observed, its name or an empty one for none, its body, and its place.
pub type Row = (u32, bool, &'static str, Is, u64);

fn cell(alloc: Global, text: &str) -> Result<Cell, Fail> {
    match parse_cell(alloc, text) {
        Ok(cell) => Ok(cell),
        Err(_) => Err("no cell".into()),
    }
}

fn import(
    alloc: Global,
    variable: u32,
    name: &str,
    alias: &str,
    from: u32,
) -> Result<Edit, AllocError> {
    let name = Text::from_str(alloc, name)?;
    let alias = Text::from_str(alloc, alias)?;
    Ok(Edit::Import {
        variable,
        name,
        alias,
        from,
    })
}

fn specifier(alloc: Global, name: &str, alias: &str) -> Result<Specifier, AllocError> {
    let name = Text::from_str(alloc, name)?;
    let alias = Text::from_str(alloc, alias)?;
    Ok(Specifier { name, alias })
}

/// The specifiers of these names and aliases.
pub(crate) fn specifiers(alloc: Global, pairs: &[(&str, &str)]) -> Result<Specifiers, AllocError> {
    let mut list = Items::new(alloc);
    for (name, alias) in pairs {
        list.push(specifier(alloc, *name, *alias)?)?;
    }
    Ok(list)
}

fn edit_of(alloc: Global, act: Act) -> Result<Edit, Fail> {
    match act {
        Act::Module => Ok(Edit::AddModule),
        Act::Variable(module, observed) => Ok(Edit::AddVariable { module, observed }),
        Act::Cell(module, text) => Ok(Edit::AddCell {
            module,
            cell: cell(alloc, text)?,
            observed: false,
        }),
        Act::Import(variable, name, alias, from) => Ok(import(alloc, variable, name, alias, from)?),
        Act::Delete(variable) => Ok(Edit::Delete { variable }),
        Act::Redefine(module, text) => Ok(Edit::Redefine {
            module,
            cell: cell(alloc, text)?,
        }),
        Act::Derive(module, pairs, source) => Ok(Edit::Derive {
            module,
            with: specifiers(alloc, pairs)?,
            source,
        }),
    }
}

fn take(alloc: Global, sheet: &mut Sheet, edit: &Edit, place: u64) -> Result<u32, AllocError> {
    match sheet.check(edit) {
        Err(reason) => Ok(reason as u32),
        Ok(()) => apply(alloc, sheet, edit, place).map(|_| 0),
    }
}

/// 0 where the edit is done, and otherwise the number of the reason against it.
pub(crate) fn answer(alloc: Global, sheet: &mut Sheet, act: Act, place: u64) -> Result<u32, Fail> {
    let edit = edit_of(alloc, act)?;
    let answer = take(alloc, sheet, &edit, place);
    drop(edit);
    Ok(answer?)
}

/// Whether all edits are done, each at the place of its number.
pub(crate) fn all_done(alloc: Global, sheet: &mut Sheet, acts: &[Act]) -> Result<bool, Fail> {
    for (i, act) in acts.iter().enumerate() {
        if answer(alloc, sheet, *act, i as u64 + 1)? != 0 {
            return Ok(false);
        }
    }
    Ok(true)
}

/// Whether a body is this one.
pub(crate) fn is_body(alloc: Global, body: &BodyOf, wanted: &Is) -> Result<bool, AllocError> {
    match (body, wanted) {
        (BodyOf::Cell(cell), Is::Cell(text)) => Ok(print(alloc, cell)?.as_str() == *text),
        (BodyOf::Import { name, from }, Is::From(remote, module)) => {
            Ok(name.as_str() == *remote && *from == *module)
        }
        _ => Ok(false),
    }
}

fn is_named(row: &VarRow, wanted: &str) -> bool {
    match &row.name {
        Some(name) => name.as_str() == wanted,
        None => wanted.is_empty(),
    }
}

fn is_row(alloc: Global, row: &VarRow, wanted: &Row) -> Result<bool, AllocError> {
    let (module, observed, name, is, place) = wanted;
    let same_body = match (&row.body, is) {
        (Some(body), is) => is_body(alloc, body, is)?,
        (None, Is::Nothing) => true,
        (None, _) => false,
    };
    Ok(
        same_body
            && row.module == *module
            && row.observed == *observed
            && row.place == *place
            && is_named(row, *name),
    )
}

fn are_rows(alloc: Global, rows: &[VarRow], wanted: &[Row]) -> Result<bool, AllocError> {
    for (row, is) in rows.iter().zip(wanted.iter()) {
        if !is_row(alloc, row, is)? {
            return Ok(false);
        }
    }
    Ok(rows.len() == wanted.len())
}

fn are_made(sheet: &Sheet, made: &[bool]) -> bool {
    if sheet.modules() as usize != made.len() {
        return false;
    }
    for k in 0..sheet.modules() {
        if sheet.by_derive(k) != made[k as usize] {
            return false;
        }
    }
    true
}

/// Whether the sheet has just these rows, and for each module whether a derive made it.
pub(crate) fn stands(
    alloc: Global,
    sheet: &Sheet,
    rows: &[Row],
    made: &[bool],
) -> Result<bool, AllocError> {
    Ok(are_rows(alloc, sheet.rows(), rows)? && are_made(sheet, made))
}
