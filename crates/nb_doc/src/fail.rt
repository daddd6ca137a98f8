//! Faults, and the paths to them.
ghost use Rattle.std.specs.Prelude.{◌≡◌, ◌∷◌, [], ◌++◌, true, Option, IfOk, Some};
ghost use Rattle.std.specs.Fmt.{decimal};
ghost use Rattle.nb_doc.specs.declared.reason.DocReason.TheVariants as reason;
ghost use Rattle.nb_doc.specs.declared.reason.DocFail.TheVariants.{Bad};
ghost use Rattle.nb_doc.specs.Faults.{Fault, Fails, here as fault_here, in_part};
ghost use Rattle.nb_doc.specs.Forms.{field_name, missing as missing_fault};

use crate::form::Field;
use crate::reason::{DocFail, DocReason};
use nb_value::Text;
use std::alloc::{AllocError, Global};

/// A fault of what is looked at itself.
pub fn here(alloc: Global, reason: DocReason) -> DocFail
    ensures { result ≡ Bad [] reason }
{
    DocFail::Bad {
        path: Text::from_string(String::new(alloc)),
        reason,
    }
}

/// That what is looked at is wrong.
pub fn wrong(alloc: Global) -> DocFail
    ensures { Fails (Some (fault_here reason.WrongField)) result }
{
    here(alloc, DocReason::WrongField)
}

/// The same fault, of what has the part at this step.
pub fn within(alloc: Global, step: &str, fail: DocFail) -> DocFail
    ensures { (fault : Option Fault) → Fails fault fail → Fails (in_part step.now fault) result }
{
    match fail {
        DocFail::Bad { path, reason } => match joined(alloc, step, path.as_str()) {
            Ok(path) => DocFail::Bad { path, reason },
            Err(AllocError) => DocFail::Memory,
        },
        DocFail::Memory => DocFail::Memory,
    }
}

/// The same fault, of an object that has it in this field.
pub fn within_field(alloc: Global, field: Field, fail: DocFail) -> DocFail
    ensures { (fault : Option Fault) → Fails fault fail → Fails (in_part (field_name field) fault) result }
{
    within(alloc, field.name(), fail)
}

/// The same fault, of the array that has the element at this position.
pub fn within_place(alloc: Global, place: usize, fail: DocFail) -> DocFail
    ensures { (fault : Option Fault) → Fails fault fail → Fails (in_part (decimal place) fault) result }
{
    match digits(alloc, place) {
        Ok(step) => within(alloc, step.as_str(), fail),
        Err(AllocError) => DocFail::Memory,
    }
}

/// That an object lacks this field.
pub fn missing(alloc: Global, field: Field) -> DocFail
    ensures { Fails (missing_fault field true) result }
{
    at_field(alloc, field, DocReason::MissingField)
}

/// A fault of what an object has in this field.
pub fn at_field(alloc: Global, field: Field, reason: DocReason) -> DocFail
    ensures { Fails (in_part (field_name field) (Some (fault_here reason))) result }
{
    within_field(alloc, field, here(alloc, reason))
}

/// That this field of an object is wrong.
pub fn wrong_at(alloc: Global, field: Field) -> DocFail
    ensures { Fails (in_part (field_name field) (Some (fault_here reason.WrongField))) result }
{
    at_field(alloc, field, DocReason::WrongField)
}

/// That what an object has under this key is wrong.
pub fn wrong_under(alloc: Global, key: &str) -> DocFail
    ensures { Fails (in_part key.now (Some (fault_here reason.WrongField))) result }
{
    within(alloc, key, wrong(alloc))
}

/// That an array's element at this position is wrong.
pub fn wrong_place(alloc: Global, place: usize) -> DocFail
    ensures { Fails (in_part (decimal place) (Some (fault_here reason.WrongField))) result }
{
    within_place(alloc, place, wrong(alloc))
}

fn joined(alloc: Global, step: &str, path: &str) -> Result<Text, AllocError>
    ensures { IfOk result (λ t. t ≡ 47 ∷ step.now ++ path.now) }
{
    let string = format!(in alloc; "/{step}{path}")?;
    Ok(Text::from_string(string))
}

fn digits(alloc: Global, place: usize) -> Result<Text, AllocError>
    ensures { IfOk result (λ t. t ≡ decimal place) }
{
    let string = format!(in alloc; "{place}")?;
    Ok(Text::from_string(string))
}
