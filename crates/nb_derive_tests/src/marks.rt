//! What an undo gives back.
use crate::acts::{Act, all_done, stands};
use crate::sheets::{DEEP, DEEP_ROWS, REPLACED, REPLACED_ROWS, new_sheet};
use nb_sheet::Sheet;
use std::alloc::{AllocError, Global};
use std::mem::drop;
use std::test::Fail;

// Edits of each kind on the sheet of a derived module.
const MORE: &[Act] = &[
    Act::Module,
    Act::Delete(5),
    Act::Redefine(1, "a = 8"),
    Act::Derive(2, &[], 1),
    Act::Import(5, "c", "e", 4),
    Act::Cell(4, "e = 1"),
    Act::Delete(1),
    Act::Redefine(1, "a = 9"),
];

fn is_replaced(alloc: Global, sheet: &Sheet) -> Result<bool, AllocError> {
    stands(alloc, sheet, REPLACED_ROWS, &[false, false, true])
}

// Edits behind a mark are taken back, as often as one likes; then the mark is the sheet of now.
fn goes_back(alloc: Global, sheet: &mut Sheet) -> Result<bool, Fail> {
    let marked = all_done(alloc, sheet, REPLACED)?;
    sheet.mark();
    let first = all_done(alloc, sheet, MORE)? && !is_replaced(alloc, sheet)?;
    sheet.undo();
    let back = is_replaced(alloc, sheet)?;
    let second = all_done(alloc, sheet, MORE)?;
    sheet.undo();
    sheet.undo();
    Ok(marked && first && back && second && is_replaced(alloc, sheet)?)
}

// Without a mark all edits are taken back.
fn goes_back_to_the_start(alloc: Global, sheet: &mut Sheet) -> Result<bool, Fail> {
    let done = all_done(alloc, sheet, DEEP)?;
    sheet.undo();
    let empty = stands(alloc, sheet, &[], &[false])?;
    let again = all_done(alloc, sheet, DEEP)?;
    let made = [false, false, true, false, true, true];
    Ok(done && empty && again && stands(alloc, sheet, DEEP_ROWS, &made)?)
}

#[test]
fn undo_gives_what_was_marked(rt: HostRuntime) -> Result<(), Fail> {
    let mut sheet = new_sheet(rt.alloc())?;
    let answer = goes_back(rt.alloc(), &mut sheet);
    drop(sheet);
    assert!(rt; answer?);
    Ok(())
}

#[test]
fn undo_without_a_mark_gives_the_first_sheet(rt: HostRuntime) -> Result<(), Fail> {
    let mut sheet = new_sheet(rt.alloc())?;
    let answer = goes_back_to_the_start(rt.alloc(), &mut sheet);
    drop(sheet);
    assert!(rt; answer?);
    Ok(())
}
