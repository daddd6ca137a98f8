//! The builtins of a document.
ghost use Rattle.std.specs.Prelude.{◌≡◌, ◌≤◌, Some, None, IfOk, IfErr, length};
ghost use Rattle.serde_json.specs.View.{view, members_view};
ghost use Rattle.nb_value.specs.Json.{value_of, fields_of};
ghost use Rattle.nb_doc.specs.declared.form.Field.TheVariants as field;
ghost use Rattle.nb_doc.specs.Faults.{Fails};
ghost use Rattle.nb_doc.specs.Forms.{may, field_fault};
ghost use Rattle.nb_doc.specs.Loading.{member_fault, members_fault, member_count, few_members_fault, builtins_fault, builtins_in, builtins_of};

use crate::fail::{within_field, wrong, wrong_under};
use crate::form::Field;
use crate::reason::DocFail;
use nb_lexer::is_name;
use nb_value::{JsonFail, Pairs, Text, Value};
use serde_json::{Map, Value as Tree};
use std::alloc::Global;

/// The most builtins that a document may have.
const MOST_BUILTINS: usize = 65_536;

/// The value at a builtin's name.
fn read_member(alloc: Global, key: &str, tree: &Tree) -> Result<Value, DocFail>
    ensures right { IfOk result (λ v. member_fault key.now (view tree.now) ≡ None) }
    ensures said { IfOk result (λ v. value_of (view tree.now) ≡ Some v) }
    ensures bad { IfErr result (Fails (member_fault key.now (view tree.now))) }
{
    if !is_name(key) {
        return Err(wrong_under(alloc, key));
    }
    match Value::from_tree(alloc, tree) {
        Ok(value) => Ok(value),
        Err(JsonFail::Memory) => Err(DocFail::Memory),
        Err(_) => Err(wrong_under(alloc, key)),
    }
}

fn each_member(alloc: Global, members: &Map<String, Tree>) -> Result<Pairs<Value>, DocFail>
    ensures right { IfOk result (λ b. members_fault (members_view members.now.entries) ≡ None) }
    ensures said { IfOk result (λ b. fields_of (members_view members.now.entries) ≡ Some b) }
    ensures bad { IfErr result (Fails (members_fault (members_view members.now.entries))) }
{
    let mut found = Pairs::new(alloc);
    for (key, member) in members.iter() {
        let name = Text::from_str(alloc, key.as_str())?;
        found.push(name, read_member(alloc, key.as_str(), member)?)?;
    }
    Ok(found)
}

/// How many members an object has.
#[tactic(auto, using(crate::proofs::CountLemmas::count_members))]
fn member_count(members: &Map<String, Tree>) -> usize
    ensures { result ≡ member_count (members_view members.now.entries) }
{
    members.len()
}

fn read_builtins(alloc: Global, tree: &Tree) -> Result<Pairs<Value>, DocFail>
    ensures right { IfOk result (λ b. builtins_fault (view tree.now) ≡ None) }
    ensures said { IfOk result (λ b. builtins_in (view tree.now) ≡ Some b) }
    ensures bad { IfErr result (Fails (builtins_fault (view tree.now))) }
{
    match tree.as_object() {
        Some(members) if member_count(members) <= MOST_BUILTINS => each_member(alloc, members),
        _ => Err(wrong(alloc)),
    }
}

/// The builtins in the document's field: none, where it has no such field.
#[tactic(auto, unfolding(crate::specs::Forms::field_fault))]
pub fn builtins_field(alloc: Global, tree: &Tree) -> Result<Pairs<Value>, DocFail>
    ensures right { IfOk result (λ b. field_fault (view tree.now) (may field.Builtins builtins_fault) ≡ None) }
    ensures said { IfOk result (λ b. builtins_of (view tree.now) ≡ b) }
    ensures bad { IfErr result (Fails (field_fault (view tree.now) (may field.Builtins builtins_fault))) }
{
    match tree.get(Field::Builtins.name()) {
        Some(found) => match read_builtins(alloc, found) {
            Ok(builtins) => Ok(builtins),
            Err(fail) => Err(within_field(alloc, Field::Builtins, fail)),
        },
        None => Ok(Pairs::new(alloc)),
    }
}
