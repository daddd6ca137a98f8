//! The modules that a derive copies.
ghost use Rattle.std.specs.Prelude.{◌≡◌, IfOk, OnOk, slice_get};
ghost use Rattle.nb_sheet.specs.Derive.{by_derive as by_derive_of, has_number, add_module as module_added, add_modules, copied_modules as copied_modules_of, copied_of};
ghost use Rattle.nb_doc.specs.Numbers.{gone_through};

use nb_sheet::{BodyOf, Specifiers, VarRow, is_copied};
use std::alloc::{AllocError, Global};

/// Whether a derive made a module.
fn by_derive(marks: &[bool], k: u32) -> bool
    ensures { result ≡ by_derive_of marks.now k }
{
    match marks.get(k as usize) {
        Some(mark) => *mark,
        None => false,
    }
}

/// Whether a number is in the list.
fn has(list: &[u32], k: u32) -> bool
    ensures { result ≡ has_number k list.now }
{
    for n in list {
        if k == *n {
            return true;
        }
    }
    false
}

/// Adds the module that an import is from, if a derive made it and it isn't in the list.
fn add_module(marks: &[bool], list: &mut Vec<u32>, body: &Option<BodyOf>) -> Result<(), AllocError>
    ensures { OnOk result (list.new.items ≡ module_added marks.now list.old.items body.now) }
{
    if let Some(BodyOf::Import { from, .. }) = body {
        if by_derive(marks, *from) && !has(list.as_slice(), *from) {
            list.push(*from)?;
        }
    }
    Ok(())
}

/// Adds what the variables of module `k` import.
fn go_through(
    marks: &[bool],
    rows: &[VarRow],
    within: u32,
    specifiers: &Specifiers,
    k: u32,
    list: &mut Vec<u32>,
) -> Result<(), AllocError>
    ensures { OnOk result (list.new.items ≡ add_modules marks.now list.old.items (copied_of within specifiers.now rows.now k)) }
{
    for row in rows {
        if is_copied(within, specifiers, k, row) {
            add_module(marks, list, &row.body)?;
        }
    }
    Ok(())
}

/// Adds what the variables import of the module at a place of the list, if there is one.
fn go_from(
    marks: &[bool],
    rows: &[VarRow],
    within: u32,
    specifiers: &Specifiers,
    place: usize,
    list: &mut Vec<u32>,
) -> Result<(), AllocError>
    ensures { OnOk result (list.new.items ≡ gone_through marks.now (copied_of within specifiers.now rows.now) place list.old.items) }
{
    match number_at(list.as_slice(), place) {
        Some(k) => go_through(marks, rows, within, specifiers, k, list),
        None => Ok(()),
    }
}

/// The number at a place, if there is one.
fn number_at(list: &[u32], place: usize) -> Option<u32>
    ensures { result ≡ slice_get list.now place }
{
    list.get(place).copied()
}

/// The modules that a derive copies, in their order.
pub fn copied_modules(
    alloc: Global,
    marks: &[bool],
    rows: &[VarRow],
    within: u32,
    specifiers: &Specifiers,
) -> Result<Vec<u32>, AllocError>
    ensures { IfOk result (λ v. v.items ≡ copied_modules_of marks.now rows.now within specifiers.now) }
{
    let mut list = Vec::new(alloc);
    list.push(within)?;
    for place in 0..marks.len() {
        go_from(marks, rows, within, specifiers, place, &mut list)?;
    }
    Ok(list)
}
