//! The pieces that lines are made of: texts, numbers, truths and values as JSON.

ghost use Rattle.std.specs.Prelude.{◌≡◌, ◌∷◌, ◌++◌, OnOk};
ghost use Rattle.std.specs.Option.{option_copied};
ghost use Rattle.nb_value.specs.declared.value.Value.TheVariants as V;
ghost use Rattle.nb_value.specs.Json.{json_text};
ghost use Rattle.nb_log.specs.Printing.{number, text_or_null};
ghost use Rattle.nb_log.specs.Pieces.{items_after};

use itoa::Buffer;
use json::Writer;
use nb_value::{Bytes, Text, Value};
use std::alloc::{AllocError, Global};
use std::mem::replace;

/// Adds the text as JSON.
#[tactic(auto, using(crate::proofs::PieceLemmas::pieces))]
pub(crate) fn push_text(alloc: Global, out: &mut Bytes, text: &str) -> Result<(), AllocError>
    ensures { OnOk result (out.new ≡ out.old ++ json_text (V.Text text.now)) }
{
    let bytes = replace(out, Bytes::new(alloc));
    let mut writer = Writer::new(bytes.into_vec());
    let answer = writer.string(text);
    *out = Bytes::from_vec(writer.into_inner());
    answer
}

/// Adds the number in decimal.
#[tactic(auto, using(crate::proofs::PieceLemmas::pieces))]
pub(crate) fn push_number(out: &mut Bytes, n: u64) -> Result<(), AllocError>
    ensures { OnOk result (out.new ≡ out.old ++ json_text (number n)) }
{
    let mut buffer = Buffer::new();
    out.append(buffer.format(n).as_bytes())
}

/// Adds `true` or `false`.
#[tactic(auto, using(crate::proofs::PieceLemmas::pieces))]
pub(crate) fn push_truth(out: &mut Bytes, truth: bool) -> Result<(), AllocError>
    ensures { OnOk result (out.new ≡ out.old ++ json_text (V.Bool truth)) }
{
    if truth {
        out.append(b"true")
    } else {
        out.append(b"false")
    }
}

/// Adds the value as JSON.
pub(crate) fn push_value(alloc: Global, out: &mut Bytes, value: &Value) -> Result<(), AllocError>
    ensures { OnOk result (out.new ≡ out.old ++ json_text value.now) }
{
    let text = value.to_json(alloc)?;
    out.append(text.as_str().as_bytes())
}

/// Adds the text, or `null`.
#[tactic(auto, using(crate::proofs::PieceLemmas::pieces))]
pub(crate) fn push_name(
    alloc: Global,
    out: &mut Bytes,
    name: Option<&Text>,
) -> Result<(), AllocError>
    ensures { OnOk result (out.new ≡ out.old ++ json_text (text_or_null (option_copied name.entry))) }
{
    match name {
        None => out.append(b"null"),
        Some(text) => push_text(alloc, out, text.as_str()),
    }
}

/// Adds the values as an array.
#[tactic(auto, using(crate::proofs::PieceLemmas::pieces))]
pub(crate) fn push_list(alloc: Global, out: &mut Bytes, values: &[Value]) -> Result<(), AllocError>
    ensures { OnOk result (out.new ≡ out.old ++ json_text (V.List values.now)) }
{
    match values.split_first() {
        None => out.append(b"[]"),
        Some((first, others)) => {
            out.append(b"[")?;
            push_value(alloc, out, first)?;
            push_values(alloc, out, others)?;
            out.append(b"]")
        }
    }
}

// Adds each value behind a comma.
fn push_values(alloc: Global, out: &mut Bytes, values: &[Value]) -> Result<(), AllocError>
    ensures { OnOk result (out.new ≡ out.old ++ items_after values.now) }
{
    for value in values {
        out.append(b",")?;
        push_value(alloc, out, value)?;
    }
    Ok(())
}
