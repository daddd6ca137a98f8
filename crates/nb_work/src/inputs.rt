//! What the inputs of a variable give, by the starts.
ghost use Rattle.std.specs.Prelude.{◌≡◌, [], ◌∷◌, Some, IfOk, map};
ghost use Rattle.std.specs.Option.{option_copied};
ghost use Rattle.nb_sheet.specs.Lists.{from_option, or_else};
ghost use Rattle.nb_history.specs.Rules.{plain_error, through_input, name_of as name_in, given, first_error as first_error_of, value_given, values_given, first_value};
ghost use Rattle.nb_work.specs.Tied.{shown_of, builtin_value as builtin_value_of, marked_by};

use crate::readiness::shown_at;
use nb_closing::Ties;
use nb_resolve::{Input, Resolution};
use nb_runs::Started;
use nb_sheet::Sheet;
use nb_value::{CellError, ErrorKind, Outcome, Pairs, Text, Tree, Value};
use std::alloc::{AllocError, Global};

/// An error that came through no input.
fn plain(alloc: Global, kind: ErrorKind, name: &Text) -> Result<CellError, AllocError>
    ensures { IfOk result (λ error. error ≡ plain_error kind name.now) }
{
    Ok(CellError {
        kind,
        detail: name.cut(alloc)?,
        via: None,
    })
}

/// The error of an outcome, as an input of a name gives it.
fn failing_through(
    alloc: Global,
    name: &Text,
    outcome: &Outcome,
) -> Result<Option<CellError>, AllocError>
    ensures { IfOk result (λ error. error ≡ first_error_of (Some (through_input name.now outcome.now) ∷ [])) }
{
    match outcome {
        Outcome::Value(_) => Ok(None),
        Outcome::Error(error) => Ok(Some(CellError {
            kind: error.kind,
            detail: error.detail.copy(alloc)?,
            via: Some(name.copy(alloc)?),
        })),
    }
}

/// The error of an input, if it fails.
fn failure(
    alloc: Global,
    sheet: &Sheet,
    starts: &Vec<Option<Started>>,
    input: &Input,
) -> Result<Option<CellError>, AllocError>
    ensures { IfOk result (λ error. error ≡ first_error_of (given sheet.now.sheet (shown_of starts.now.items) input.now ∷ [])) }
{
    let name = input.name();
    match input.resolution() {
        Resolution::Missing => Ok(Some(plain(alloc, ErrorKind::NotDefined, name)?)),
        Resolution::Twice => Ok(Some(plain(alloc, ErrorKind::DefinedTwice, name)?)),
        Resolution::Builtin(_) => Ok(None),
        Resolution::Var(u) => match shown_at(starts, u) {
            None => Ok(None),
            Some(outcome) => {
                let error = failing_through(alloc, name, outcome)?;
                Ok(error)
            }
        },
    }
}

/// The error of the first input that fails.
fn first_error(
    alloc: Global,
    sheet: &Sheet,
    starts: &Vec<Option<Started>>,
    inputs: &Vec<Input>,
) -> Result<Option<CellError>, AllocError>
    ensures { IfOk result (λ error. error ≡ first_error_of (map (given sheet.now.sheet (shown_of starts.now.items)) inputs.now.items)) }
{
    for input in inputs {
        if let Some(error) = failure(alloc, sheet, starts, input)? {
            return Ok(Some(error));
        }
    }
    Ok(None)
}

/// The value of the builtin at a place.
fn builtin_value(alloc: Global, sheet: &Sheet, b: u32) -> Result<Value, AllocError>
    ensures { IfOk result (λ value. value ≡ builtin_value_of sheet.now.sheet b) }
{
    let builtins = sheet.builtins();
    match builtins.as_slice().get(b as usize) {
        None => Ok(Value::Null),
        Some(field) => Ok(field.value.copy(alloc)?),
    }
}

/// The value of an outcome, and null for an error.
fn shown_value(alloc: Global, outcome: &Outcome) -> Result<Value, AllocError>
    ensures { IfOk result (λ value. value ≡ value_given (Some outcome.now)) }
{
    match outcome {
        Outcome::Value(value) => Ok(value.copy(alloc)?),
        Outcome::Error(_) => Ok(Value::Null),
    }
}

/// The value of an input, and null where it has none.
fn value_of(
    alloc: Global,
    sheet: &Sheet,
    starts: &Vec<Option<Started>>,
    input: &Input,
) -> Result<Value, AllocError>
    ensures { IfOk result (λ value. value ≡ value_given (given sheet.now.sheet (shown_of starts.now.items) input.now)) }
{
    match input.resolution() {
        Resolution::Missing | Resolution::Twice => Ok(Value::Null),
        Resolution::Builtin(b) => {
            let value = builtin_value(alloc, sheet, b)?;
            Ok(value)
        }
        Resolution::Var(u) => match shown_at(starts, u) {
            None => Ok(Value::Null),
            Some(outcome) => {
                let value = shown_value(alloc, outcome)?;
                Ok(value)
            }
        },
    }
}

/// The names of the inputs, in byte order, with their values.
pub(crate) fn values(
    alloc: Global,
    sheet: &Sheet,
    starts: &Vec<Option<Started>>,
    inputs: &Vec<Input>,
) -> Result<Pairs<Value>, AllocError>
    ensures { IfOk result (λ values. values ≡ values_given sheet.now.sheet (shown_of starts.now.items) inputs.now.items) }
{
    let mut values = Pairs::new(alloc);
    for k in 0..inputs.len() {
        let place = inputs.len() - 1 - k;
        let input = &inputs[place];
        let value = value_of(alloc, sheet, starts, input)?;
        values.put(input.name().copy(alloc)?, value)?;
    }
    Ok(values)
}

/// The first of the values, and null where there is none.
pub(crate) fn first(alloc: Global, values: &Pairs<Value>) -> Result<Value, AllocError>
    ensures { IfOk result (λ value. value ≡ first_value values.now) }
{
    match values.as_slice() {
        [] => Ok(Value::Null),
        [field, ..] => Ok(field.value.copy(alloc)?),
    }
}

/// The name of a variable, if it has one.
fn name_of(sheet: &Sheet, var: u32) -> Option<&Text>
    ensures { from_option [] (λ n. n) (option_copied result) ≡ name_in sheet.now.sheet var }
{
    match sheet.variable(var) {
        None => None,
        Some(row) => row.name.as_ref(),
    }
}

/// An error of a variable with this name.
fn named_error(alloc: Global, kind: ErrorKind, name: Option<&Text>) -> Result<CellError, AllocError>
    ensures { IfOk result (λ error. error ≡ plain_error kind (from_option [] (λ n. n) (option_copied name.entry))) }
{
    match name {
        Some(name) => {
            let error = plain(alloc, kind, name)?;
            Ok(error)
        }
        None => {
            let nothing = Text::from_str(alloc, "")?;
            let error = plain(alloc, kind, &nothing)?;
            Ok(error)
        }
    }
}

/// The error of a variable of these ties that is a duplicate or circular.
fn marked_error(
    alloc: Global,
    sheet: &Sheet,
    tied: &Ties,
    var: u32,
) -> Result<Option<CellError>, AllocError>
    ensures { IfOk result (λ error. error ≡ marked_by tied.now.is_duplicate tied.now.is_circular (name_in sheet.now.sheet var)) }
{
    let name = name_of(sheet, var);
    if tied.is_duplicate() {
        Ok(Some(named_error(alloc, ErrorKind::DefinedTwice, name)?))
    } else if tied.is_circular() {
        Ok(Some(named_error(alloc, ErrorKind::Circular, name)?))
    } else {
        Ok(None)
    }
}

/// The error that decides before any evaluation: that of a mark, or of the first input that fails.
pub(crate) fn deciding_error(
    alloc: Global,
    sheet: &Sheet,
    tied: &Ties,
    starts: &Vec<Option<Started>>,
    var: u32,
) -> Result<Option<CellError>, AllocError>
    ensures { IfOk result (λ error. error ≡ or_else (marked_by tied.now.is_duplicate tied.now.is_circular (name_in sheet.now.sheet var)) (first_error_of (map (given sheet.now.sheet (shown_of starts.now.items)) tied.now.inputs))) }
{
    match marked_error(alloc, sheet, tied, var)? {
        Some(error) => Ok(Some(error)),
        None => {
            let error = first_error(alloc, sheet, starts, tied.inputs())?;
            Ok(error)
        }
    }
}
