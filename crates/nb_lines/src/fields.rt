//! The fields of a line by their kinds, and what is told where one is missing or wrong.
ghost use Rattle.std.specs.Prelude.{◌≡◌, Some, None, IfOk, IfErr, IfSome, option_map};
ghost use Rattle.serde_json.specs.View.{view};
ghost use Rattle.nb_lines.specs.declared.script.BadReason.TheVariants as reason;
ghost use Rattle.nb_lines.specs.declared.form.Field.TheVariants as field;
ghost use Rattle.nb_lines.specs.Forms.{needs, may, whole as whole_kind, editor as editor_kind, truth, text as text_kind, name as name_kind, value as value_kind, field_name};
ghost use Rattle.nb_lines.specs.Fields.{number_in, whole_in, editor_in, name_in, is_there, whole_at, text_at, name_at, value_at, observed_of, editor_of, alias_or, field_reason};
ghost use Rattle.nb_lines.specs.Reads.{FailsPlainly};

use crate::form::Field;
use crate::script::{BadReason, OneFail};
use nb_lexer::is_name;
use nb_value::{JsonFail, Text, Value};
use serde_json::Value as Tree;
use std::alloc::{AllocError, Global};

/// What a number of a line is at most.
const GREATEST: u64 = 4_294_967_295;

/// The greatest editor.
const LAST_EDITOR: u64 = 7;

/// That a line lacks this field.
pub fn missing(alloc: Global, field: Field) -> OneFail
    ensures { FailsPlainly (Some (reason.MissingField (field_name field))) result }
{
    match Text::from_str(alloc, field.name()) {
        Ok(key) => OneFail::Bad(BadReason::MissingField(key)),
        Err(AllocError) => OneFail::Memory,
    }
}

/// That this field is wrong.
pub fn wrong(alloc: Global, field: Field) -> OneFail
    ensures { FailsPlainly (Some (reason.WrongField (field_name field))) result }
{
    match Text::from_str(alloc, field.name()) {
        Ok(key) => OneFail::Bad(BadReason::WrongField(key)),
        Err(AllocError) => OneFail::Memory,
    }
}

/// That a line has a field, with this key, that its form has not.
pub fn unknown(alloc: Global, key: &str) -> OneFail
    ensures { FailsPlainly (Some (reason.UnknownField key.now)) result }
{
    match Text::from_str(alloc, key) {
        Ok(key) => OneFail::Bad(BadReason::UnknownField(key)),
        Err(AllocError) => OneFail::Memory,
    }
}

/// Whether a line has this field.
pub fn is_there(tree: &Tree, field: Field) -> bool
    ensures { result ≡ is_there field (view tree.now) }
{
    tree.get(field.name()).is_some()
}

/// The whole number in a field.
#[tactic(auto, unfolding(crate::specs::Fields::field_reason))]
pub fn whole(alloc: Global, tree: &Tree, field: Field) -> Result<u32, OneFail>
    ensures right { IfOk result (λ n. field_reason (view tree.now) (needs field whole_kind) ≡ None) }
    ensures said { IfOk result (λ n. whole_at field (view tree.now) ≡ Some n) }
    ensures bad { IfErr result (FailsPlainly (field_reason (view tree.now) (needs field whole_kind))) }
{
    match tree.get(field.name()) {
        Some(found) => match whole_in(found) {
            Some(number) => Ok(number),
            None => Err(wrong(alloc, field)),
        },
        None => Err(missing(alloc, field)),
    }
}

/// The text in a field.
#[tactic(auto, unfolding(crate::specs::Fields::field_reason))]
pub fn text<'t>(alloc: Global, tree: &'t Tree, field: Field) -> Result<&'t str, OneFail>
    ensures right { IfOk result (λ s. field_reason (view tree.now) (needs field text_kind) ≡ None) }
    ensures said { IfOk result (λ s. text_at field (view tree.now) ≡ Some s.now) }
    ensures bad { IfErr result (FailsPlainly (field_reason (view tree.now) (needs field text_kind))) }
{
    match tree.get(field.name()) {
        Some(found) => match found.as_str() {
            Some(text) => Ok(text),
            None => Err(wrong(alloc, field)),
        },
        None => Err(missing(alloc, field)),
    }
}

/// The name in a field.
#[tactic(auto, unfolding(crate::specs::Fields::field_reason))]
pub fn name<'t>(alloc: Global, tree: &'t Tree, field: Field) -> Result<&'t str, OneFail>
    ensures right { IfOk result (λ s. field_reason (view tree.now) (needs field name_kind) ≡ None) }
    ensures said { IfOk result (λ s. name_at field (view tree.now) ≡ Some s.now) }
    ensures bad { IfErr result (FailsPlainly (field_reason (view tree.now) (needs field name_kind))) }
{
    match tree.get(field.name()) {
        Some(found) => match name_in(found) {
            Some(name) => Ok(name),
            None => Err(wrong(alloc, field)),
        },
        None => Err(missing(alloc, field)),
    }
}

/// The value in a field.
#[tactic(auto, unfolding(crate::specs::Fields::field_reason))]
pub fn value(alloc: Global, tree: &Tree, field: Field) -> Result<Value, OneFail>
    ensures right { IfOk result (λ v. field_reason (view tree.now) (needs field value_kind) ≡ None) }
    ensures said { IfOk result (λ v. value_at field (view tree.now) ≡ Some v) }
    ensures bad { IfErr result (FailsPlainly (field_reason (view tree.now) (needs field value_kind))) }
{
    match tree.get(field.name()) {
        Some(found) => match Value::from_tree(alloc, found) {
            Ok(value) => Ok(value),
            Err(JsonFail::Memory) => Err(OneFail::Memory),
            Err(_) => Err(wrong(alloc, field)),
        },
        None => Err(missing(alloc, field)),
    }
}

/// Whether a line's variable is observed. It is, where the line doesn't say.
#[tactic(auto, unfolding(crate::specs::Fields::field_reason))]
pub fn observed(alloc: Global, tree: &Tree) -> Result<bool, OneFail>
    ensures right { IfOk result (λ b. field_reason (view tree.now) (may field.Observed truth) ≡ None) }
    ensures said { IfOk result (λ b. observed_of (view tree.now) ≡ b) }
    ensures bad { IfErr result (FailsPlainly (field_reason (view tree.now) (may field.Observed truth))) }
{
    match tree.get(Field::Observed.name()) {
        Some(found) => match found.as_bool() {
            Some(observed) => Ok(observed),
            None => Err(wrong(alloc, Field::Observed)),
        },
        None => Ok(true),
    }
}

/// The alias of an import: its name, where the line has none.
#[tactic(auto, unfolding(crate::specs::Fields::field_reason))]
pub fn alias<'t>(alloc: Global, tree: &'t Tree, name: &'t str) -> Result<&'t str, OneFail>
    ensures right { IfOk result (λ s. field_reason (view tree.now) (may field.Alias name_kind) ≡ None) }
    ensures said { IfOk result (λ s. alias_or name.now (view tree.now) ≡ s.now) }
    ensures bad { IfErr result (FailsPlainly (field_reason (view tree.now) (may field.Alias name_kind))) }
{
    match tree.get(Field::Alias.name()) {
        Some(found) => match name_in(found) {
            Some(alias) => Ok(alias),
            None => Err(wrong(alloc, Field::Alias)),
        },
        None => Ok(name),
    }
}

/// Whose line it is: editor 0's, where the line doesn't say.
#[tactic(auto, unfolding(crate::specs::Fields::field_reason))]
pub fn editor(alloc: Global, tree: &Tree) -> Result<u8, OneFail>
    ensures right { IfOk result (λ n. field_reason (view tree.now) (may field.Editor editor_kind) ≡ None) }
    ensures said { IfOk result (λ n. editor_of (view tree.now) ≡ n) }
    ensures bad { IfErr result (FailsPlainly (field_reason (view tree.now) (may field.Editor editor_kind))) }
{
    match tree.get(Field::Editor.name()) {
        Some(found) => match editor_in(found) {
            Some(editor) => Ok(editor),
            None => Err(wrong(alloc, Field::Editor)),
        },
        None => Ok(0),
    }
}

/// A whole number of a line.
fn whole_in(tree: &Tree) -> Option<u32>
    ensures { result ≡ whole_in (view tree.now) }
{
    match tree.as_u64() {
        Some(number) if number <= GREATEST => Some(number as u32),
        _ => None,
    }
}

fn editor_in(tree: &Tree) -> Option<u8>
    ensures { result ≡ editor_in (view tree.now) }
{
    match tree.as_u64() {
        Some(number) if number <= LAST_EDITOR => Some(number as u8),
        _ => None,
    }
}

/// A text that is a name.
pub fn name_in(tree: &Tree) -> Option<&str>
    ensures { option_map (λ s. s.now) result ≡ name_in (view tree.now) }
{
    match tree.as_str() {
        Some(text) if is_name(text) => Some(text),
        _ => None,
    }
}
