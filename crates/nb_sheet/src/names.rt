//! The variables of a module that have a name.

ghost use Rattle.std.specs.Prelude.{◌≡◌, ◌≤◌, length};
ghost use Rattle.nb_sheet.specs.Scan.{has_name, also, one_in};

use crate::refused::Refused;
use crate::row::VarRow;

/// Whether a row is of a module and has a name.
fn is_of_name(row: &VarRow, within: u32, name: &str) -> bool
    ensures { result ≡ has_name within name.now row.now }
{
    match &row.name {
        Some(own) => row.module == within && own.as_str() == name,
        None => false,
    }
}

/// The one variable of a name, where one more variable has it.
fn with_one_more(found: Result<u32, Refused>, var: u32) -> Result<u32, Refused>
    ensures { result ≡ also var found }
{
    match found {
        Err(Refused::NotNamed) => Ok(var),
        _ => Err(Refused::NamedTwice),
    }
}

/// The one variable of a module that has a name.
pub fn the_one(rows: &[VarRow], within: u32, name: &str) -> Result<u32, Refused>
    requires { length rows.now ≤ 1024 }
    ensures { result ≡ one_in within name.now rows.now }
{
    let mut found = Err(Refused::NotNamed);
    for (i, row) in rows.iter().enumerate() {
        if is_of_name(row, within, name) {
            found = with_one_more(found, i as u32 + 1);
        }
    }
    found
}
