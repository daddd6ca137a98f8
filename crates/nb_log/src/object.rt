//! Edits and events as text: their canonical objects.

ghost use Rattle.std.specs.Prelude.{◌≡◌, [], ◌∷◌, ◌++◌, map, codes, OnOk};
ghost use Rattle.nb_value.specs.declared.value.Value.TheVariants as V;
ghost use Rattle.nb_value.specs.Json.{json_text};
ghost use Rattle.nb_syntax.specs.Print.{cell_text};
ghost use Rattle.nb_log.specs.Printing.{number, field, settle_fields, specifier_object, edit_object, event_object};
ghost use Rattle.nb_log.specs.Objects.{target_field};
ghost use Rattle.nb_log.specs.Pieces.{field_text, items_after};

use crate::event::{Event, Target};
use crate::piece::{push_number, push_text, push_truth, push_value};
use nb_sheet::{Edit, Specifier};
use nb_syntax::{Cell, print};
use nb_value::{Answer, Bytes, Text, Value};
use std::alloc::{AllocError, Global};

/// Adds the object of an event.
pub(crate) fn push_event(alloc: Global, out: &mut Bytes, event: &Event) -> Result<(), AllocError>
    ensures { OnOk result (out.new ≡ out.old ++ json_text (event_object event.now)) }
{
    match event {
        Event::Edit(edit) => push_edit(alloc, out, edit),
        Event::Frame => push_bare(alloc, out, "frame"),
        Event::Settle { target, answer } => push_settle(alloc, out, target, answer),
        Event::Rest => push_bare(alloc, out, "rest"),
        Event::Dispose => push_bare(alloc, out, "dispose"),
    }
}

/// Adds the object of an edit.
pub(crate) fn push_edit(alloc: Global, out: &mut Bytes, edit: &Edit) -> Result<(), AllocError>
    ensures { OnOk result (out.new ≡ out.old ++ json_text (edit_object edit.now)) }
{
    match edit {
        Edit::AddModule => push_bare(alloc, out, "module"),
        Edit::AddVariable { module, observed } => push_added(alloc, out, *module, *observed),
        Edit::AddCell {
            module,
            cell,
            observed,
        } => push_added_cell(alloc, out, *module, cell, *observed),
        Edit::Define { variable, cell } => {
            push_cell_at(alloc, out, "define", "variable", *variable, cell)
        }
        Edit::Import {
            variable,
            name,
            alias,
            from,
        } => push_import(alloc, out, *variable, name, alias, *from),
        Edit::Delete { variable } => push_delete(alloc, out, *variable),
        Edit::Redefine { module, cell } => {
            push_cell_at(alloc, out, "redefine", "module", *module, cell)
        }
        Edit::Derive {
            module,
            with,
            source,
        } => push_derive(alloc, out, *module, with.as_slice(), *source),
    }
}

// An object with this text at `do`, and no more.
#[tactic(auto, using(crate::proofs::PieceLemmas::records))]
fn push_bare(alloc: Global, out: &mut Bytes, action: &str) -> Result<(), AllocError>
    ensures { OnOk result (out.new ≡ out.old ++ json_text (V.Rec (field (codes "do") (V.Text action.now) ∷ []))) }
{
    open(alloc, out, "do", action)?;
    out.append(b"}")
}

fn push_added(alloc: Global, out: &mut Bytes, within: u32, observed: bool) -> Result<(), AllocError>
    ensures { OnOk result (out.new ≡ out.old ++ json_text (edit_object (Edit.AddVariable within observed))) }
{
    open(alloc, out, "do", "variable")?;
    push_number_at(alloc, out, "module", within)?;
    push_truth_at(alloc, out, "observed", observed)?;
    out.append(b"}")
}

fn push_added_cell(
    alloc: Global,
    out: &mut Bytes,
    within: u32,
    cell: &Cell,
    observed: bool,
) -> Result<(), AllocError>
    ensures { OnOk result (out.new ≡ out.old ++ json_text (edit_object (Edit.AddCell within cell.now observed))) }
{
    open_cell(alloc, out, cell)?;
    push_text_at(alloc, out, "do", "cell")?;
    push_number_at(alloc, out, "module", within)?;
    push_truth_at(alloc, out, "observed", observed)?;
    out.append(b"}")
}

// A cell, an action and a number.
fn push_cell_at(
    alloc: Global,
    out: &mut Bytes,
    action: &str,
    name: &str,
    n: u32,
    cell: &Cell,
) -> Result<(), AllocError>
    ensures { OnOk result (out.new ≡ out.old ++ json_text (V.Rec (field (codes "cell") (V.Text (cell_text cell.now))
        ∷ field (codes "do") (V.Text action.now) ∷ field name.now (number n) ∷ []))) }
{
    open_cell(alloc, out, cell)?;
    push_text_at(alloc, out, "do", action)?;
    push_number_at(alloc, out, name, n)?;
    out.append(b"}")
}

fn push_import(
    alloc: Global,
    out: &mut Bytes,
    variable: u32,
    name: &Text,
    alias: &Text,
    from: u32,
) -> Result<(), AllocError>
    ensures { OnOk result (out.new ≡ out.old ++ json_text (edit_object (Edit.Import variable name.now alias.now from))) }
{
    open(alloc, out, "alias", alias.as_str())?;
    push_text_at(alloc, out, "do", "import")?;
    push_number_at(alloc, out, "from", from)?;
    push_text_at(alloc, out, "name", name.as_str())?;
    push_number_at(alloc, out, "variable", variable)?;
    out.append(b"}")
}

fn push_delete(alloc: Global, out: &mut Bytes, variable: u32) -> Result<(), AllocError>
    ensures { OnOk result (out.new ≡ out.old ++ json_text (edit_object (Edit.Delete variable))) }
{
    open(alloc, out, "do", "delete")?;
    push_number_at(alloc, out, "variable", variable)?;
    out.append(b"}")
}

fn push_derive(
    alloc: Global,
    out: &mut Bytes,
    within: u32,
    specifiers: &[Specifier],
    source: u32,
) -> Result<(), AllocError>
    ensures { OnOk result (out.new ≡ out.old ++ json_text (edit_object (Edit.Derive within specifiers.now source))) }
{
    open(alloc, out, "do", "derive")?;
    push_number_at(alloc, out, "module", within)?;
    push_number_at(alloc, out, "source", source)?;
    push_with(alloc, out, specifiers)?;
    out.append(b"}")
}

// The field of the specifiers.
#[tactic(auto, using(crate::proofs::PieceLemmas::records))]
fn push_with(alloc: Global, out: &mut Bytes, specifiers: &[Specifier]) -> Result<(), AllocError>
    ensures { OnOk result (out.new ≡ out.old ++ 44 ∷ field_text (field (codes "with") (V.List (map specifier_object specifiers.now)))) }
{
    push_key(alloc, out, "with")?;
    push_specifiers(alloc, out, specifiers)
}

// The specifiers as an array.
#[tactic(auto, using(crate::proofs::PieceLemmas::pieces))]
fn push_specifiers(
    alloc: Global,
    out: &mut Bytes,
    specifiers: &[Specifier],
) -> Result<(), AllocError>
    ensures { OnOk result (out.new ≡ out.old ++ json_text (V.List (map specifier_object specifiers.now))) }
{
    match specifiers.split_first() {
        None => out.append(b"[]"),
        Some((first, others)) => {
            out.append(b"[")?;
            push_specifier(alloc, out, first)?;
            push_further(alloc, out, others)?;
            out.append(b"]")
        }
    }
}

// Each specifier behind a comma.
fn push_further(alloc: Global, out: &mut Bytes, specifiers: &[Specifier]) -> Result<(), AllocError>
    ensures { OnOk result (out.new ≡ out.old ++ items_after (map specifier_object specifiers.now)) }
{
    for specifier in specifiers {
        out.append(b",")?;
        push_specifier(alloc, out, specifier)?;
    }
    Ok(())
}

fn push_specifier(alloc: Global, out: &mut Bytes, specifier: &Specifier) -> Result<(), AllocError>
    ensures { OnOk result (out.new ≡ out.old ++ json_text (specifier_object specifier.now)) }
{
    open(alloc, out, "alias", specifier.alias.as_str())?;
    push_text_at(alloc, out, "name", specifier.name.as_str())?;
    out.append(b"}")
}

fn push_settle(
    alloc: Global,
    out: &mut Bytes,
    target: &Target,
    answer: &Answer,
) -> Result<(), AllocError>
    ensures { OnOk result (out.new ≡ out.old ++ json_text (V.Rec (settle_fields target.now answer.now))) }
{
    match answer {
        Answer::Value(value) => push_value_for(alloc, out, target, value),
        Answer::Failure(text) => push_failure_for(alloc, out, target, text),
    }
}

#[tactic(auto, using(crate::proofs::ObjectLemmas::settlements))]
fn push_value_for(
    alloc: Global,
    out: &mut Bytes,
    target: &Target,
    value: &Value,
) -> Result<(), AllocError>
    ensures { OnOk result (out.new ≡ out.old ++ json_text (V.Rec (settle_fields target.now (Answer.Value value.now)))) }
{
    open(alloc, out, "do", "settle")?;
    push_target(alloc, out, target)?;
    push_key(alloc, out, "value")?;
    push_value(alloc, out, value)?;
    out.append(b"}")
}

#[tactic(auto, using(crate::proofs::ObjectLemmas::settlements))]
fn push_failure_for(
    alloc: Global,
    out: &mut Bytes,
    target: &Target,
    text: &Text,
) -> Result<(), AllocError>
    ensures { OnOk result (out.new ≡ out.old ++ json_text (V.Rec (settle_fields target.now (Answer.Failure text.now)))) }
{
    open(alloc, out, "do", "settle")?;
    push_text_at(alloc, out, "error", text.as_str())?;
    push_target(alloc, out, target)?;
    out.append(b"}")
}

// The field that says which fetch.
fn push_target(alloc: Global, out: &mut Bytes, target: &Target) -> Result<(), AllocError>
    ensures { OnOk result (out.new ≡ out.old ++ 44 ∷ field_text (target_field target.now)) }
{
    match target {
        Target::Ticket(ticket) => push_ticket(alloc, out, *ticket),
        Target::Key(key) => push_text_at(alloc, out, "key", key.as_str()),
    }
}

#[tactic(auto, using(crate::proofs::PieceLemmas::records))]
fn push_ticket(alloc: Global, out: &mut Bytes, ticket: u64) -> Result<(), AllocError>
    ensures { OnOk result (out.new ≡ out.old ++ 44 ∷ field_text (field (codes "ticket") (number ticket))) }
{
    push_key(alloc, out, "ticket")?;
    push_number(out, ticket)
}

// The front of an object: its first field, with a text.
#[tactic(auto, using(crate::proofs::PieceLemmas::records))]
fn open(alloc: Global, out: &mut Bytes, name: &str, text: &str) -> Result<(), AllocError>
    ensures { OnOk result (out.new ≡ out.old ++ 123 ∷ field_text (field name.now (V.Text text.now))) }
{
    out.append(b"{")?;
    push_text(alloc, out, name)?;
    out.append(b":")?;
    push_text(alloc, out, text)
}

fn open_cell(alloc: Global, out: &mut Bytes, cell: &Cell) -> Result<(), AllocError>
    ensures { OnOk result (out.new ≡ out.old ++ 123 ∷ field_text (field (codes "cell") (V.Text (cell_text cell.now)))) }
{
    let text = print(alloc, cell)?;
    open(alloc, out, "cell", text.as_str())
}

// A comma, a name and a colon.
#[tactic(auto, using(crate::proofs::PieceLemmas::records))]
fn push_key(alloc: Global, out: &mut Bytes, name: &str) -> Result<(), AllocError>
    ensures { OnOk result (out.new ≡ out.old ++ 44 ∷ (json_text (V.Text name.now) ++ 58 ∷ [])) }
{
    out.append(b",")?;
    push_text(alloc, out, name)?;
    out.append(b":")
}

#[tactic(auto, using(crate::proofs::PieceLemmas::records))]
fn push_text_at(alloc: Global, out: &mut Bytes, name: &str, text: &str) -> Result<(), AllocError>
    ensures { OnOk result (out.new ≡ out.old ++ 44 ∷ field_text (field name.now (V.Text text.now))) }
{
    push_key(alloc, out, name)?;
    push_text(alloc, out, text)
}

#[tactic(auto, using(crate::proofs::PieceLemmas::records))]
fn push_number_at(alloc: Global, out: &mut Bytes, name: &str, n: u32) -> Result<(), AllocError>
    ensures { OnOk result (out.new ≡ out.old ++ 44 ∷ field_text (field name.now (number n))) }
{
    push_key(alloc, out, name)?;
    push_number(out, n as u64)
}

#[tactic(auto, using(crate::proofs::PieceLemmas::records))]
fn push_truth_at(alloc: Global, out: &mut Bytes, name: &str, b: bool) -> Result<(), AllocError>
    ensures { OnOk result (out.new ≡ out.old ++ 44 ∷ field_text (field name.now (V.Bool b))) }
{
    push_key(alloc, out, name)?;
    push_truth(out, b)
}
