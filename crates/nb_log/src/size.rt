//! The size of an entry, which is that of the array it prints as. Sizes stop at the end of u64.

ghost use Rattle.std.specs.Prelude.{◌≡◌, ◌+◌, ◌-◌, ◌^◌, length, map, min, sum_by};
ghost use Rattle.nb_value.specs.Value.{size};
ghost use Rattle.nb_log.specs.Printing.{text_or_null, specifier_object, edit_object, event_object, answer_field, answer_items, error_items, entry_size};
ghost use Rattle.nb_log.specs.Size.{field_size, target_size};
ghost use Rattle.nb_syntax.specs.Print.{cell_text};

use crate::entry::Entry;
use crate::event::{Event, Target};
use crate::names::{kind_name, refusal_name};
use nb_sheet::{Edit, Specifier};
use nb_syntax::{Cell, printed_len};
use nb_value::{Answer, CellError, Text, Value};

// A field of a number or a truth: its name, and two.
const MODULE: u64 = 8;

const OBSERVED: u64 = 10;

const VARIABLE: u64 = 10;

const FROM: u64 = 6;

const SOURCE: u64 = 8;

const TICKET: u64 = 8;

/// The size of the array that the entry prints as. It takes no memory.
#[tactic(auto, using(crate::proofs::SizeLemmas::sizes), unfolding(crate::specs::Printing::entry_size))]
pub fn entry_size(entry: &Entry) -> u64
    ensures { result ≡ min (entry_size entry.now) (2 ^ 64 - 1) }
{
    match entry {
        Entry::Edit { edit, .. } => array_size("edit", 1, edit_size(edit)),
        Entry::Frame { .. } => array_size("frame", 1, 0),
        Entry::Settled { answer, .. } => array_size("settled", 2, answer_size(answer)),
        Entry::Late { .. } => array_size("late", 2, 0),
        Entry::Loaded { answer, .. } => array_size("loaded", 1, answer_size(answer)),
        Entry::Refused { reason, event, .. } => {
            let name = refusal_name(*reason).len() as u64 + 1;
            array_size("refused", 2, event_size(event).saturating_add(name))
        }
        Entry::Rest { .. } => array_size("rest", 1, 0),
        Entry::Dispose { .. } => array_size("dispose", 1, 0),
        Entry::Pending { disposed, .. } => array_size("pending", 1, list_size(disposed.as_slice())),
        Entry::Fulfilled { value, .. } => array_size("fulfilled", 1, value.size()),
        Entry::Rejected { error, .. } => array_size("rejected", 1, error_size(error)),
        Entry::Asked { key, .. } => array_size("asked", 2, text_size(key)),
        Entry::Ended { .. } => array_size("ended", 1, 0),
        Entry::Left { disposed, .. } => array_size("left", 1, list_size(disposed.as_slice())),
    }
}

// One for the array, one for its first text, and one for each number.
fn array_size(name: &str, numbers: u8, rest: u64) -> u64
    ensures { result ≡ min (2 + length name.now + numbers + rest) (2 ^ 64 - 1) }
{
    rest.saturating_add(name.len() as u64)
        .saturating_add(numbers as u64)
        .saturating_add(2)
}

// A record with a text at `do`, and what the other fields take.
fn object_size(action: &str, rest: u64) -> u64
    ensures { result ≡ min (5 + length action.now + rest) (2 ^ 64 - 1) }
{
    rest.saturating_add(action.len() as u64).saturating_add(5)
}

// A field of a value.
fn value_field(name: &str, value: u64) -> u64
    ensures { result ≡ min (1 + length name.now + value) (2 ^ 64 - 1) }
{
    value.saturating_add(name.len() as u64).saturating_add(1)
}

fn text_size(text: &Text) -> u64
    ensures { result ≡ min (1 + length text.now) (2 ^ 64 - 1) }
{
    (text.len() as u64).saturating_add(1)
}

fn list_size(values: &[Value]) -> u64
    ensures { result ≡ min (1 + sum_by size values.now) (2 ^ 64 - 1) }
{
    let mut total = 1u64;
    for value in values {
        total = total.saturating_add(value.size());
    }
    total
}

#[tactic(auto, using(crate::proofs::SizeLemmas::sizes))]
fn answer_size(answer: &Answer) -> u64
    ensures { result ≡ min (sum_by size (answer_items answer.now)) (2 ^ 64 - 1) }
{
    match answer {
        Answer::Value(value) => value.size().saturating_add(6),
        Answer::Failure(text) => text_size(text).saturating_add(6),
    }
}

#[tactic(auto, using(crate::proofs::SizeLemmas::sizes))]
fn name_size(name: &Option<Text>) -> u64
    ensures { result ≡ min (size (text_or_null name.now)) (2 ^ 64 - 1) }
{
    match name {
        None => 1,
        Some(text) => text_size(text),
    }
}

#[tactic(auto, using(crate::proofs::SizeLemmas::sizes))]
fn error_size(error: &CellError) -> u64
    ensures { result ≡ min (sum_by size (error_items error.now)) (2 ^ 64 - 1) }
{
    let kind = kind_name(error.kind).len() as u64 + 1;
    let texts = text_size(&error.detail).saturating_add(name_size(&error.via));
    texts.saturating_add(kind)
}

#[tactic(auto, using(crate::proofs::SizeLemmas::sizes))]
fn edit_size(edit: &Edit) -> u64
    ensures { result ≡ min (size (edit_object edit.now)) (2 ^ 64 - 1) }
{
    match edit {
        Edit::AddModule => object_size("module", 0),
        Edit::AddVariable {
            module: _,
            observed: _,
        } => object_size("variable", MODULE + OBSERVED),
        Edit::AddCell {
            module: _,
            cell,
            observed: _,
        } => object_size("cell", cell_field(cell).saturating_add(MODULE + OBSERVED)),
        Edit::Define { variable: _, cell } => {
            object_size("define", cell_field(cell).saturating_add(VARIABLE))
        }
        Edit::Import {
            variable: _,
            name,
            alias,
            from: _,
        } => {
            let names = value_field("alias", text_size(alias)).saturating_add(value_field(
                "name",
                text_size(name),
            ));
            object_size("import", names.saturating_add(FROM + VARIABLE))
        }
        Edit::Delete { variable: _ } => object_size("delete", VARIABLE),
        Edit::Redefine { module: _, cell } => {
            object_size("redefine", cell_field(cell).saturating_add(MODULE))
        }
        Edit::Derive {
            module: _,
            with,
            source: _,
        } => {
            let specifiers = value_field("with", specifiers_size(with.as_slice()));
            object_size("derive", specifiers.saturating_add(MODULE + SOURCE))
        }
    }
}

// One for the list, and what each specifier takes.
fn specifiers_size(specifiers: &[Specifier]) -> u64
    ensures { result ≡ min (1 + sum_by size (map specifier_object specifiers.now)) (2 ^ 64 - 1) }
{
    let mut sum = 1u64;
    for specifier in specifiers {
        sum = sum.saturating_add(specifier_size(specifier));
    }
    sum
}

#[tactic(auto, using(crate::proofs::SizeLemmas::sizes))]
fn specifier_size(specifier: &Specifier) -> u64
    ensures { result ≡ min (size (specifier_object specifier.now)) (2 ^ 64 - 1) }
{
    value_field("alias", text_size(&specifier.alias))
        .saturating_add(value_field("name", text_size(&specifier.name)))
        .saturating_add(1)
}

fn cell_field(cell: &Cell) -> u64
    ensures { result ≡ min (6 + length (cell_text cell.now)) (2 ^ 64 - 1) }
{
    value_field("cell", printed_len(cell).saturating_add(1))
}

#[tactic(auto, using(crate::proofs::SizeLemmas::sizes))]
fn event_size(event: &Event) -> u64
    ensures { result ≡ min (size (event_object event.now)) (2 ^ 64 - 1) }
{
    match event {
        Event::Edit(edit) => edit_size(edit),
        Event::Frame => object_size("frame", 0),
        Event::Settle { target, answer } => {
            object_size(
                "settle",
                target_size(target).saturating_add(answer_field_size(answer)),
            )
        }
        Event::Rest => object_size("rest", 0),
        Event::Dispose => object_size("dispose", 0),
    }
}

// The field that says which fetch.
fn target_size(target: &Target) -> u64
    ensures { result ≡ min (target_size target.now) (2 ^ 64 - 1) }
{
    match target {
        Target::Ticket(_) => TICKET,
        Target::Key(key) => value_field("key", text_size(key)),
    }
}

// The field that says the answer.
#[tactic(auto, using(crate::proofs::SizeLemmas::sizes))]
fn answer_field_size(answer: &Answer) -> u64
    ensures { result ≡ min (field_size (answer_field answer.now)) (2 ^ 64 - 1) }
{
    match answer {
        Answer::Value(value) => value_field("value", value.size()),
        Answer::Failure(text) => value_field("error", text_size(text)),
    }
}
