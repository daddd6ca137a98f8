//! The inputs of an evaluation.

ghost use Rattle.std.specs.Prelude.{◌≡◌, length};
ghost use Rattle.std.specs.Option.{option_copied};
ghost use Rattle.nb_value.specs.Fields.{IsInOrder, value_at};

use nb_value::{Field, Pairs, Value};
use std::cmp::Ordering;

/// The input of this name. It takes no memory, and as many comparisons as the logarithm of the number of inputs.
pub fn input_of<'a>(inputs: &'a Pairs<Value>, name: &str) -> Option<&'a Value>
    ensures { option_copied result ≡ value_at name.now inputs.now }
{
    value_in(inputs.as_slice(), name)
}

// The value at a name, from the middle on.
fn value_in<'a>(fields: &'a [Field<Value>], name: &str) -> Option<&'a Value>
    requires { IsInOrder fields.now }
    ensures { option_copied result ≡ value_at name.now fields.now }
{
    let (front, back) = fields.split_at(fields.len() / 2);
    let (field, after) = back.split_first()?;
    match field.name.as_str().cmp(&name) {
        Ordering::Less => value_in(after, name),
        Ordering::Equal => Some(&field.value),
        Ordering::Greater => value_in(front, name),
    }
}
