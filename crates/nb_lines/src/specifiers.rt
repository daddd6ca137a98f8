//! The specifiers of a derive.
ghost use Rattle.std.specs.Prelude.{◌≡◌, None, Some, IfOk, IfErr, option_map};
ghost use Rattle.serde_json.specs.Find.{as_object, get};
ghost use Rattle.serde_json.specs.View.{view, items_view, members_view};
ghost use Rattle.nb_lines.specs.declared.form.Field.TheVariants as field;
ghost use Rattle.nb_lines.specs.Forms.{needs, specifiers as specifiers_kind, field_name};
ghost use Rattle.nb_lines.specs.Fields.{specifier_in, object_specifier, text_specifier, specifiers_at, specifiers_in, each_specifier, specifier, alias_of, field_reason};
ghost use Rattle.nb_lines.specs.Reads.{FailsPlainly};

use crate::fields::{missing, name_in, wrong};
use crate::form::Field;
use crate::keys::unknown_key;
use crate::script::OneFail;
use nb_lexer::is_name;
use nb_sheet::{Specifier, Specifiers};
use nb_value::{Items, Text};
use serde_json::{Map, Value as Tree};
use std::alloc::{AllocError, Global};

/// The specifiers in the field `with`.
#[tactic(auto, unfolding(crate::specs::Fields::field_reason))]
pub fn specifiers(alloc: Global, tree: &Tree) -> Result<Specifiers, OneFail>
    ensures right { IfOk result (λ s. field_reason (view tree.now) (needs field.With specifiers_kind) ≡ None) }
    ensures said { IfOk result (λ s. specifiers_at field.With (view tree.now) ≡ Some s) }
    ensures bad { IfErr result (FailsPlainly (field_reason (view tree.now) (needs field.With specifiers_kind))) }
{
    match tree.get(Field::With.name()) {
        Some(found) => match specifiers_in(alloc, found)? {
            Some(specifiers) => Ok(specifiers),
            None => Err(wrong(alloc, Field::With)),
        },
        None => Err(missing(alloc, Field::With)),
    }
}

fn specifiers_in(alloc: Global, tree: &Tree) -> Result<Option<Specifiers>, AllocError>
    ensures { IfOk result (λ o. o ≡ specifiers_in (view tree.now)) }
{
    match tree.as_array() {
        Some(items) => each_specifier(alloc, items),
        None => Ok(None),
    }
}

fn each_specifier(alloc: Global, items: &Vec<Tree>) -> Result<Option<Specifiers>, AllocError>
    ensures { IfOk result (λ o. o ≡ each_specifier (items_view items.now.items)) }
{
    let mut found = Items::new(alloc);
    for item in items {
        match specifier_in(alloc, item)? {
            Some(specifier) => found.push(specifier)?,
            None => return Ok(None),
        }
    }
    Ok(Some(found))
}

/// One specifier: a name, or an object with a name and perhaps an alias.
#[tactic(auto, unfolding(crate::specs::Fields::specifier_in))]
fn specifier_in(alloc: Global, tree: &Tree) -> Result<Option<Specifier>, AllocError>
    ensures { IfOk result (λ o. o ≡ specifier_in (view tree.now)) }
{
    match tree.as_str() {
        Some(text) => text_specifier(alloc, text),
        None => match tree.as_object() {
            Some(object) => object_specifier(alloc, tree, object),
            None => Ok(None),
        },
    }
}

fn text_specifier(alloc: Global, text: &str) -> Result<Option<Specifier>, AllocError>
    ensures { IfOk result (λ o. o ≡ text_specifier text.now) }
{
    if is_name(text) {
        Ok(Some(specifier(alloc, text, text)?))
    } else {
        Ok(None)
    }
}

fn object_specifier(
    alloc: Global,
    tree: &Tree,
    object: &Map<String, Tree>,
) -> Result<Option<Specifier>, AllocError>
    requires { as_object (view tree.now) ≡ Some (members_view object.now.entries) }
    ensures { IfOk result (λ o. o ≡ object_specifier (view tree.now)) }
{
    if unknown_key(object, &[Field::Name, Field::Alias]).is_some() {
        return Ok(None);
    }
    let Some(name) = tree.get(Field::Name.name()).and_then(name_in) else {
        return Ok(None);
    };
    match alias_of(tree, name) {
        Some(alias) => Ok(Some(specifier(alloc, name, alias)?)),
        None => Ok(None),
    }
}

/// The alias, which is the name where there is none.
fn alias_of<'t>(tree: &'t Tree, name: &'t str) -> Option<&'t str>
    ensures { option_map (λ s. s.now) result ≡ alias_of (get (field_name field.Alias) (view tree.now)) name.now }
{
    match tree.get(Field::Alias.name()) {
        Some(found) => name_in(found),
        None => Some(name),
    }
}

fn specifier(alloc: Global, name: &str, alias: &str) -> Result<Specifier, AllocError>
    ensures { IfOk result (λ s. s ≡ specifier name.now alias.now) }
{
    Ok(Specifier {
        name: Text::from_str(alloc, name)?,
        alias: Text::from_str(alloc, alias)?,
    })
}
