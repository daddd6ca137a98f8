//! The specifiers of a derived module.
ghost use Rattle.std.specs.Prelude.{◌≡◌, None, Some, IfOk, option_map};
ghost use Rattle.serde_json.specs.Find.{as_object, get};
ghost use Rattle.serde_json.specs.View.{view, items_view, members_view};
ghost use Rattle.nb_lines.specs.Fields.{specifier_in as specifier_in_data, object_specifier as object_specifier_data, text_specifier as text_specifier_data, specifiers_in as specifiers_in_data, each_specifier as each_specifier_data, specifier as specifier_of, alias_of as alias_of_data};
ghost use Rattle.nb_doc.specs.declared.form.Field.TheVariants as field;
ghost use Rattle.nb_doc.specs.Forms.{field_name};

use crate::contents::name_in;
use crate::form::Field;
use crate::object::unknown_key;
use nb_lexer::is_name;
use nb_sheet::{Specifier, Specifiers};
use nb_value::{Items, Text};
use serde_json::{Map, Value as Tree};
use std::alloc::{AllocError, Global};

/// The specifiers that an array has, if it is one of specifiers.
pub fn specifiers_in(alloc: Global, tree: &Tree) -> Result<Option<Specifiers>, AllocError>
    ensures { IfOk result (λ o. o ≡ specifiers_in_data (view tree.now)) }
{
    match tree.as_array() {
        Some(items) => each_specifier(alloc, items),
        None => Ok(None),
    }
}

fn each_specifier(alloc: Global, items: &Vec<Tree>) -> Result<Option<Specifiers>, AllocError>
    ensures { IfOk result (λ o. o ≡ each_specifier_data (items_view items.now.items)) }
{
    let mut found = Items::new(alloc);
    for item in items {
        match specifier_in(alloc, item)? {
            Some(specifier) => found.push(specifier)?,
            None => return Ok(None),
        }
    }
    Ok(Some(found))
}

/// One specifier: a name, or an object with a name and perhaps an alias.
#[tactic(auto, using(crate::proofs::SpecifierLemmas::by_case))]
fn specifier_in(alloc: Global, tree: &Tree) -> Result<Option<Specifier>, AllocError>
    ensures { IfOk result (λ o. o ≡ specifier_in_data (view tree.now)) }
{
    match tree.as_str() {
        Some(text) => text_specifier(alloc, text),
        None => match tree.as_object() {
            Some(object) => object_specifier(alloc, tree, object),
            None => Ok(None),
        },
    }
}

fn text_specifier(alloc: Global, text: &str) -> Result<Option<Specifier>, AllocError>
    ensures { IfOk result (λ o. o ≡ text_specifier_data text.now) }
{
    if is_name(text) {
        Ok(Some(specifier(alloc, text, text)?))
    } else {
        Ok(None)
    }
}

fn object_specifier(
    alloc: Global,
    tree: &Tree,
    object: &Map<String, Tree>,
) -> Result<Option<Specifier>, AllocError>
    requires { as_object (view tree.now) ≡ Some (members_view object.now.entries) }
    ensures { IfOk result (λ o. o ≡ object_specifier_data (view tree.now)) }
{
    if unknown_key(object, &[Field::Name, Field::Alias]).is_some() {
        return Ok(None);
    }
    let Some(name) = tree.get(Field::Name.name()).and_then(name_in) else {
        return Ok(None);
    };
    match alias_of(tree, name) {
        Some(alias) => Ok(Some(specifier(alloc, name, alias)?)),
        None => Ok(None),
    }
}

/// The alias, which is the name where there is none.
fn alias_of<'t>(tree: &'t Tree, name: &'t str) -> Option<&'t str>
    ensures { option_map (λ s. s.now) result ≡ alias_of_data (get (field_name field.Alias) (view tree.now)) name.now }
{
    match tree.get(Field::Alias.name()) {
        Some(found) => name_in(found),
        None => Some(name),
    }
}

fn specifier(alloc: Global, name: &str, alias: &str) -> Result<Specifier, AllocError>
    ensures { IfOk result (λ s. s ≡ specifier_of name.now alias.now) }
{
    Ok(Specifier {
        name: Text::from_str(alloc, name)?,
        alias: Text::from_str(alloc, alias)?,
    })
}
