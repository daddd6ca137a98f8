//! How many variables a derive makes.

ghost use Rattle.std.specs.Prelude.{◌≡◌, ◌≤◌, ◌<◌, ◌-◌, ◌^◌, ℕ, List, length, map, min};
ghost use Rattle.std.specs.List.{flat_map};
ghost use Rattle.nb_sheet.specs.declared.copies.NewModule.{NewModule};
ghost use Rattle.nb_sheet.specs.declared.row.VarRow.{VarRow as Row};
ghost use Rattle.nb_sheet.specs.Derive.{copied_of, copied_var, module_copy, variables_of};

use crate::copied::is_copied;
use crate::edit::Specifiers;
use crate::row::VarRow;
use crate::sheet::Sheet;

/// One for a row with a name and a body.
fn count_of(row: &VarRow) -> usize
    ensures value { (next : ℕ) (copied : List ℕ) → result ≡ length (copied_var next copied row.now.name row.now.body) }
    ensures small { result ≤ 1 }
{
    match (&row.name, &row.body) {
        (Some(_), Some(_)) => 1,
        _ => 0,
    }
}

/// How many variables of module `k` are copied.
fn count_copied(
    sheet: &Sheet,
    within: u32,
    specifiers: &Specifiers,
    copied: &[u32],
    k: u32,
) -> usize
    ensures value { result ≡ length (flat_map (λ (row : Row). copied_var (length sheet.now.sheet.modules) copied.now row.name row.body) (copied_of within specifiers.now sheet.now.sheet.rows k)) }
    ensures few { result ≤ 1024 }
{
    let mut count = 0;
    for row in sheet.rows() {
        if is_copied(within, specifiers, k, row) {
            count += count_of(row);
        }
    }
    count
}

/// How many variables the copy of module `k` has.
fn count_in(
    sheet: &Sheet,
    within: u32,
    specifiers: &Specifiers,
    source: u32,
    copied: &[u32],
    k: u32,
) -> usize
    ensures { result ≡ length (NewModule.variables (module_copy (length sheet.now.sheet.modules) sheet.now.sheet.rows within specifiers.now source copied.now k)) }
{
    let count = count_copied(sheet, within, specifiers, copied, k);
    if k == within {
        return specifiers.len() + count;
    }
    count
}

/// How many variables the copies of these modules have, at most as a number of 64 bits holds.
pub fn count_all(
    sheet: &Sheet,
    within: u32,
    specifiers: &Specifiers,
    source: u32,
    copied: &[u32],
) -> usize
    ensures { result ≡ min (variables_of (map (module_copy (length sheet.now.sheet.modules) sheet.now.sheet.rows within specifiers.now source copied.now) copied.now)) (2 ^ 64 - 1) }
{
    let mut count: usize = 0;
    for k in copied {
        count = count.saturating_add(count_in(sheet, within, specifiers, source, copied, *k));
    }
    count
}
