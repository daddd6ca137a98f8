ghost use Rattle.std.specs.Prelude.{◌≡◌, ◌≤◌, length, IfOk, map};
ghost use Rattle.std.specs.List.{filter_map};
ghost use Rattle.nb_syntax.specs.FreeNames.{free};
ghost use Rattle.nb_resolve.specs.Names.{resolve as resolve_of, duplicate, is_duplicate_row, inputs as inputs_of, inputs_of_row as row_inputs, inputs_of_body as body_inputs, variable_of};
ghost use Rattle.nb_sheet.specs.Scan.{has_name};
ghost use Rattle.nb_resolve.specs.Scan.{also, found_in, builtin_place, or_builtin, is_twin as is_twin_in};

use crate::input::Input;
use crate::resolution::Resolution;
use nb_sheet::{BodyOf, Sheet, VarRow};
use nb_syntax::{Cell, free_names};
use nb_value::{Pairs, Text, Tree, Value};
use std::alloc::{AllocError, Global};

/// Whether a row is of a module and has a name.
fn is_of_name(row: &VarRow, within: u32, name: &str) -> bool
    ensures { result ≡ has_name within name.now row.now }
{
    match &row.name {
        Some(own) => row.module == within && own.as_str() == name,
        None => false,
    }
}

/// What a name stands for, where one more variable has it.
fn with_one_more(found: Resolution, var: u32) -> Resolution
    ensures { result ≡ also var found }
{
    match found {
        Resolution::Missing => Resolution::Var(var),
        _ => Resolution::Twice,
    }
}

/// What a name stands for in a module, by its variables.
fn by_variables(rows: &[VarRow], within: u32, name: &str) -> Resolution
    requires { length rows.now ≤ 1024 }
    ensures { result ≡ found_in within name.now rows.now }
{
    let mut found = Resolution::Missing;
    for (i, row) in rows.iter().enumerate() {
        if is_of_name(row, within, name) {
            found = with_one_more(found, i as u32 + 1);
        }
    }
    found
}

/// Where a name stands among the builtins.
fn builtin(builtins: &Pairs<Value>, name: &str) -> Option<u32>
    requires { length builtins.now ≤ 65536 }
    ensures { result ≡ builtin_place name.now builtins.now }
{
    let fields = builtins.as_slice();
    for i in 0..fields.len() {
        if fields[i].name.as_str() == name {
            return Some(i as u32);
        }
    }
    None
}

/// The builtin at a place, if there is one.
fn built_in(at: Option<u32>) -> Resolution
    ensures { result ≡ or_builtin at Resolution.Missing }
{
    match at {
        Some(b) => Resolution::Builtin(b),
        None => Resolution::Missing,
    }
}

/// What a name stands for in a module: `Twice` where two or more of its variables have it, the one that has it, the
/// builtin of that name, or `Missing`. In a module that isn't there only builtins have names. It takes no memory, and
/// costs a scan over the variables, and one over the builtins where none of them has the name.
pub fn resolve(sheet: &Sheet, within: u32, name: &str) -> Resolution
    ensures { result ≡ resolve_of sheet.now.sheet within name.now }
{
    match by_variables(sheet.rows(), within, name) {
        Resolution::Missing => built_in(builtin(sheet.builtins(), name)),
        found => found,
    }
}

/// Whether two rows or more have a row's module and name.
fn is_twin(rows: &[VarRow], row: &VarRow) -> bool
    requires { length rows.now ≤ 1024 }
    ensures { result ≡ is_twin_in rows.now row.now }
{
    match &row.name {
        None => false,
        Some(name) => matches!(
            by_variables(rows, row.module, name.as_str()),
            Resolution::Twice
        ),
    }
}

/// Whether another variable of its module has a row's name.
fn is_duplicate_in(sheet: &Sheet, row: &VarRow) -> bool
    ensures { result ≡ is_duplicate_row sheet.now.sheet row.now }
{
    is_twin(sheet.rows(), row)
}

/// Whether another variable of its module has a variable's name. It takes no memory, and costs a scan over the variables.
pub fn is_duplicate(sheet: &Sheet, var: u32) -> bool
    ensures { result ≡ duplicate sheet.now.sheet var }
{
    match sheet.variable(var) {
        None => false,
        Some(row) => is_duplicate_in(sheet, row),
    }
}

/// Names in a module, each with what it stands for.
fn resolve_all(
    alloc: Global,
    sheet: &Sheet,
    within: u32,
    names: &[Text],
) -> Result<Vec<Input>, AllocError>
    ensures { IfOk result (λ inputs. inputs.items ≡ map (λ n. (n, resolve_of sheet.now.sheet within n)) names.now) }
{
    let mut inputs = Vec::new(alloc);
    for name in names {
        let resolution = resolve(sheet, within, name.as_str());
        inputs.push(Input::new(name.copy(alloc)?, resolution))?;
    }
    Ok(inputs)
}

/// The inputs of a cell in a module.
fn cell_inputs(
    alloc: Global,
    sheet: &Sheet,
    within: u32,
    cell: &Cell,
) -> Result<Vec<Input>, AllocError>
    ensures { IfOk result (λ inputs. inputs.items ≡ map (λ n. (n, resolve_of sheet.now.sheet within n)) (free cell.now)) }
{
    let names = free_names(alloc, cell)?;
    let found = resolve_all(alloc, sheet, within, names.as_slice())?;
    Ok(found)
}

/// The inputs of a body in a module.
fn inputs_of_body(
    alloc: Global,
    sheet: &Sheet,
    within: u32,
    body: &Option<BodyOf>,
) -> Result<Vec<Input>, AllocError>
    ensures { IfOk result (λ inputs. inputs.items ≡ body_inputs sheet.now.sheet within body.now) }
{
    match body {
        None => Ok(Vec::new(alloc)),
        Some(BodyOf::Import { name, from }) => {
            let mut inputs = Vec::new(alloc);
            let resolution = resolve(sheet, *from, name.as_str());
            inputs.push(Input::new(name.copy(alloc)?, resolution))?;
            Ok(inputs)
        }
        Some(BodyOf::Cell(cell)) => {
            let found = cell_inputs(alloc, sheet, within, cell)?;
            Ok(found)
        }
    }
}

/// The inputs of a row, none for a duplicate.
fn inputs_of_row(
    alloc: Global,
    sheet: &Sheet,
    row: &VarRow,
    is_duplicate: bool,
) -> Result<Vec<Input>, AllocError>
    requires { is_duplicate ≡ is_duplicate_row sheet.now.sheet row.now }
    ensures { IfOk result (λ inputs. inputs.items ≡ row_inputs sheet.now.sheet row.now) }
{
    if is_duplicate {
        return Ok(Vec::new(alloc));
    }
    let found = inputs_of_body(alloc, sheet, row.module, &row.body)?;
    Ok(found)
}

/// A variable's inputs: the free names of its cell, in order of first occurrence, each with what it stands for in its
/// module, or an import's one, the remote name in the other module. A duplicate, an undefined variable and a number
/// that names no variable have none. It costs a scan over variables and builtins for each input, and fails only
/// without memory.
pub fn inputs(alloc: Global, sheet: &Sheet, var: u32) -> Result<Vec<Input>, AllocError>
    ensures { IfOk result (λ inputs. inputs.items ≡ inputs_of sheet.now.sheet var) }
{
    inputs_where(alloc, sheet, var, is_duplicate(sheet, var))
}

/// The same inputs, for a caller that knows already whether the variable is a duplicate. It saves the scan for that.
pub fn inputs_where(
    alloc: Global,
    sheet: &Sheet,
    var: u32,
    is_duplicate: bool,
) -> Result<Vec<Input>, AllocError>
    requires { is_duplicate ≡ duplicate sheet.now.sheet var }
    ensures { IfOk result (λ inputs. inputs.items ≡ inputs_of sheet.now.sheet var) }
{
    match sheet.variable(var) {
        None => Ok(Vec::new(alloc)),
        Some(row) => {
            let found = inputs_of_row(alloc, sheet, row, is_duplicate)?;
            Ok(found)
        }
    }
}

/// The variable that an input stands for, if it is one.
fn variable(input: &Input) -> Option<u32>
    ensures { result ≡ variable_of input.now }
{
    match input.resolution() {
        Resolution::Var(v) => Some(v),
        _ => None,
    }
}

/// The variables among inputs, in their order. It fails only without memory.
pub fn variables(alloc: Global, inputs: &[Input]) -> Result<Vec<u32>, AllocError>
    ensures { IfOk result (λ vars. vars.items ≡ filter_map variable_of inputs.now) }
{
    inputs.iter().filter_map(variable).collect(alloc)
}
