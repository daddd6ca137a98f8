//! The rows of the copies of a derive.

ghost use Rattle.std.specs.Prelude.{◌≡◌, ◌≤◌, ◌<◌, ◌+◌, ◌^◌, ◌++◌, true, map, length, vec_len, vec_capacity};
ghost use Rattle.nb_sheet.specs.Derive.{new_row, rows_of, variables_of};

use crate::copies::{Copies, NewModule, NewVar, NewVars};
use crate::row::VarRow;

/// How many variables the copies have.
pub fn count_variables(copies: &[NewModule]) -> usize
    requires { variables_of copies.now ≤ 1024 }
    ensures { result ≡ variables_of copies.now }
{
    let mut count = 0;
    for copy in copies {
        count += copy.variables.as_slice().len();
    }
    count
}

/// Adds the rows of a copy's variables.
fn add_variables(rows: &mut Vec<VarRow>, within: u32, place: u64, vars: NewVars)
    requires { vec_len rows.old + length vars ≤ vec_capacity rows.old }
    ensures items { rows.new.items ≡ rows.old.items ++ map (new_row within place) vars }
    ensures capacity { vec_capacity rows.new ≡ vec_capacity rows.old }
{
    for var in vars.into_vec() {
        let NewVar { name, body } = var;
        rows.push_reserved(VarRow {
            module: within,
            observed: false,
            name: Some(name),
            body: Some(body),
            place,
        });
    }
}

/// Adds the copies. There is room for them.
pub fn add_modules(modules: &mut Vec<bool>, rows: &mut Vec<VarRow>, place: u64, copies: Copies)
    requires modules { vec_len modules.old + length copies ≤ vec_capacity modules.old }
    requires few { vec_len modules.old + length copies ≤ 64 }
    requires rows { vec_len rows.old + variables_of copies ≤ vec_capacity rows.old }
    ensures modules { modules.new.items ≡ modules.old.items ++ map (λ c. true) copies }
    ensures rows { rows.new.items ≡ rows.old.items ++ rows_of (length modules.old.items) place copies }
{
    for copy in copies.into_vec() {
        let NewModule { variables } = copy;
        add_variables(rows, modules.len() as u32, place, variables);
        modules.push_reserved(true);
    }
}
