//! The items of a line, each behind a comma.

ghost use Rattle.std.specs.Prelude.{◌≡◌, [], ◌∷◌, ◌++◌, OnOk};
ghost use Rattle.nb_value.specs.declared.value.Value.TheVariants as V;
ghost use Rattle.nb_value.specs.Json.{json_text};
ghost use Rattle.nb_log.specs.Printing.{number, answer_items, error_items};
ghost use Rattle.nb_log.specs.Pieces.{items_after, open_array};

use crate::names::kind_name;
use crate::piece::{push_name, push_number, push_text, push_value};
use nb_value::{Answer, Bytes, CellError, Value};
use std::alloc::{AllocError, Global};

/// Adds the front of a line: a name and a number.
#[tactic(auto, using(crate::proofs::PieceLemmas::lines))]
pub(crate) fn open(alloc: Global, out: &mut Bytes, name: &str, n: u64) -> Result<(), AllocError>
    ensures { OnOk result (out.new ≡ out.old ++ open_array (V.Text name.now) (number n ∷ [])) }
{
    out.append(b"[")?;
    push_text(alloc, out, name)?;
    push_number_item(out, n)
}

/// Adds a number.
pub(crate) fn push_number_item(out: &mut Bytes, n: u64) -> Result<(), AllocError>
    ensures { OnOk result (out.new ≡ out.old ++ 44 ∷ json_text (number n)) }
{
    out.append(b",")?;
    push_number(out, n)
}

/// Adds a text.
pub(crate) fn push_text_item(alloc: Global, out: &mut Bytes, text: &str) -> Result<(), AllocError>
    ensures { OnOk result (out.new ≡ out.old ++ 44 ∷ json_text (V.Text text.now)) }
{
    out.append(b",")?;
    push_text(alloc, out, text)
}

/// Adds a value.
pub(crate) fn push_item(alloc: Global, out: &mut Bytes, value: &Value) -> Result<(), AllocError>
    ensures { OnOk result (out.new ≡ out.old ++ 44 ∷ json_text value.now) }
{
    out.append(b",")?;
    push_value(alloc, out, value)
}

/// Adds an answer: which it is, and what it says.
pub(crate) fn push_answer(alloc: Global, out: &mut Bytes, answer: &Answer) -> Result<(), AllocError>
    ensures { OnOk result (out.new ≡ out.old ++ items_after (answer_items answer.now)) }
{
    match answer {
        Answer::Value(value) => push_named(alloc, out, "value", value),
        Answer::Failure(text) => push_texts(alloc, out, "error", text.as_str()),
    }
}

/// Adds a name and a value.
#[tactic(auto, using(crate::proofs::PieceLemmas::lines))]
pub(crate) fn push_named(
    alloc: Global,
    out: &mut Bytes,
    name: &str,
    value: &Value,
) -> Result<(), AllocError>
    ensures { OnOk result (out.new ≡ out.old ++ items_after (V.Text name.now ∷ value.now ∷ [])) }
{
    push_text_item(alloc, out, name)?;
    push_item(alloc, out, value)
}

#[tactic(auto, using(crate::proofs::PieceLemmas::lines))]
fn push_texts(alloc: Global, out: &mut Bytes, first: &str, second: &str) -> Result<(), AllocError>
    ensures { OnOk result (out.new ≡ out.old ++ items_after (V.Text first.now ∷ V.Text second.now ∷ [])) }
{
    push_text_item(alloc, out, first)?;
    push_text_item(alloc, out, second)
}

/// Adds an error: its kind, its detail, and the name of the input that it came by, or null.
#[tactic(auto, using(crate::proofs::PieceLemmas::lines))]
pub(crate) fn push_error(
    alloc: Global,
    out: &mut Bytes,
    error: &CellError,
) -> Result<(), AllocError>
    ensures { OnOk result (out.new ≡ out.old ++ items_after (error_items error.now)) }
{
    push_texts(alloc, out, kind_name(error.kind), error.detail.as_str())?;
    out.append(b",")?;
    push_name(alloc, out, error.via.as_ref())
}
