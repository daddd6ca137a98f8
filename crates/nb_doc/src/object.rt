//! What holds of an object as a whole: that it is one, and has no field that it may not have.
ghost use Rattle.std.specs.Prelude.{◌≡◌, find, not, option_map, None, IfOk, IfErr, Some};
ghost use Rattle.serde_json.specs.View.{view, members_view};
ghost use Rattle.serde_json.specs.Find.{as_object};
ghost use Rattle.nb_lines.specs.Fields.{member_keys};
ghost use Rattle.nb_doc.specs.Faults.{Fails};
ghost use Rattle.nb_doc.specs.Forms.{is_among, is_there as is_there_of, head_fault, unknown_field};

use crate::fail::{here, within};
use crate::form::{Field, is_among};
use crate::reason::{DocFail, DocReason};
use serde_json::{Map, Value as Tree};
use std::alloc::Global;

/// Whether an object has this field.
pub fn is_there(tree: &Tree, field: Field) -> bool
    ensures { result ≡ is_there_of field (view tree.now) }
{
    tree.get(field.name()).is_some()
}

/// The first key in byte order that is none of these fields'.
pub fn unknown_key<'t>(object: &'t Map<String, Tree>, known: &[Field]) -> Option<&'t str>
    ensures { option_map (λ s. s.now) result ≡ find (λ k. not (is_among known.now k)) (member_keys (members_view object.now.entries)) }
{
    for (key, _) in object.iter() {
        if !is_among(key.as_str(), known) {
            return Some(key.as_str());
        }
    }
    None
}

/// Finds fault with what is no object, or has a field that is none of these.
pub fn test_object(alloc: Global, tree: &Tree, known: &[Field]) -> Result<(), DocFail>
    ensures right { IfOk result (λ _. head_fault known.now (view tree.now) ≡ None) }
    ensures bad { IfErr result (Fails (head_fault known.now (view tree.now))) }
{
    match tree.as_object() {
        Some(object) => test_keys(alloc, tree, object, known),
        None => Err(here(alloc, DocReason::NotObject)),
    }
}

fn test_keys(
    alloc: Global,
    tree: &Tree,
    object: &Map<String, Tree>,
    known: &[Field],
) -> Result<(), DocFail>
    requires { as_object (view tree.now) ≡ Some (members_view object.now.entries) }
    ensures right { IfOk result (λ _. head_fault known.now (view tree.now) ≡ None) }
    ensures bad { IfErr result (Fails (head_fault known.now (view tree.now))) }
{
    match unknown_key(object, known) {
        Some(key) => Err(within(alloc, key, here(alloc, DocReason::UnknownField))),
        None => Ok(()),
    }
}
