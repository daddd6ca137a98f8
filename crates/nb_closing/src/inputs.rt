ghost use Rattle.std.specs.Prelude.{◌≡◌, [], ◌∷◌, IfOk, map};
ghost use Rattle.nb_syntax.specs.FreeNames.{free};
ghost use Rattle.nb_resolve.specs.Names.{resolve, is_duplicate_row, inputs_of_row as row_inputs, inputs_of_body as body_inputs};

use crate::names::Names;
use nb_resolve::Input;
use nb_sheet::{BodyOf, VarRow};
use nb_syntax::{Cell, free_names};
use nb_value::{Text, Tree};
use std::alloc::{AllocError, Global};

/// A name with what it stands for in a module.
fn input(alloc: Global, names: &Names, within: u32, name: &Text) -> Result<Input, AllocError>
    ensures { IfOk result (λ i. i ≡ (name.now, resolve names.now within name.now)) }
{
    let resolution = names.resolve(within, name.as_str());
    let own = name.copy(alloc)?;
    Ok(Input::new(own, resolution))
}

/// Names in a module, each with what it stands for.
fn inputs_named(
    alloc: Global,
    names: &Names,
    within: u32,
    list: &[Text],
) -> Result<Vec<Input>, AllocError>
    ensures { IfOk result (λ inputs. inputs.items ≡ map (λ n. (n, resolve names.now within n)) list.now) }
{
    let mut inputs = Vec::with_capacity(alloc, list.len())?;
    for name in list {
        inputs.push(input(alloc, names, within, name)?)?;
    }
    Ok(inputs)
}

/// The inputs of a cell in a module.
fn inputs_of_cell(
    alloc: Global,
    names: &Names,
    within: u32,
    cell: &Cell,
) -> Result<Vec<Input>, AllocError>
    ensures { IfOk result (λ inputs. inputs.items ≡ map (λ n. (n, resolve names.now within n)) (free cell.now)) }
{
    let list = free_names(alloc, cell)?;
    let found = inputs_named(alloc, names, within, list.as_slice())?;
    Ok(found)
}

/// The input of an import, a name of another module.
fn input_of_import(
    alloc: Global,
    names: &Names,
    from: u32,
    name: &Text,
) -> Result<Vec<Input>, AllocError>
    ensures { IfOk result (λ inputs. inputs.items ≡ (name.now, resolve names.now from name.now) ∷ []) }
{
    let mut inputs = Vec::with_capacity(alloc, 1)?;
    inputs.push(input(alloc, names, from, name)?)?;
    Ok(inputs)
}

/// The inputs of a body in a module.
fn inputs_of_body(
    alloc: Global,
    names: &Names,
    within: u32,
    body: &Option<BodyOf>,
) -> Result<Vec<Input>, AllocError>
    ensures { IfOk result (λ inputs. inputs.items ≡ body_inputs names.now within body.now) }
{
    match body {
        None => Ok(Vec::new(alloc)),
        Some(BodyOf::Import { name, from }) => input_of_import(alloc, names, *from, name),
        Some(BodyOf::Cell(cell)) => inputs_of_cell(alloc, names, within, cell),
    }
}

/// The inputs of a row, none for a duplicate, by the rules of `nb_resolve`. It fails only without memory, and costs a
/// look-up for each input, and what `free_names` costs.
pub fn inputs_of_row(
    alloc: Global,
    names: &Names,
    row: &VarRow,
    is_duplicate: bool,
) -> Result<Vec<Input>, AllocError>
    requires { is_duplicate ≡ is_duplicate_row names.now row.now }
    ensures { IfOk result (λ inputs. inputs.items ≡ row_inputs names.now row.now) }
{
    if is_duplicate {
        return Ok(Vec::new(alloc));
    }
    inputs_of_body(alloc, names, row.module, &row.body)
}
