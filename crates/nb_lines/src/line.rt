//! One line: its JSON, its form, its fields, and its event.
ghost use Rattle.std.specs.Prelude.{◌≡◌, ◌⊎◌, ◌↔◌, None, Some, IfOk, IfErr, IsTrue};
ghost use Rattle.serde_json.specs.Errors.{IsMemory};
ghost use Rattle.serde_json.specs.Find.{as_object};
ghost use Rattle.serde_json.specs.View.{view, members_view};
ghost use Rattle.nb_lines.specs.declared.form.Form.{Form as FormValue};
ghost use Rattle.nb_lines.specs.Reasons.{bad_do, form_of, unknown_field, event_fault, data_fault, line_data, not_json, line_fault};
ghost use Rattle.nb_lines.specs.Says.{event_of, data_script, script_of};
ghost use Rattle.nb_lines.specs.Reads.{Fails, FailsPlainly};

use crate::edits::{add_cell, add_variable, define, delete, derive, import, redefine};
use crate::fields::{editor, missing, unknown, wrong};
use crate::form::{Field, Form};
use crate::keys::unknown_key;
use crate::script::{BadReason, OneFail, ScriptLine};
use crate::settlements::settle;
use nb_log::Event;
use nb_sheet::Edit;
use serde_json::{Category, Map, Value as Tree};
use std::alloc::Global;

/// What a line says, within the limits of the input; or its first fault.
#[tactic(auto, unfolding(crate::specs::Reasons::line_fault, crate::specs::Says::script_of))]
pub fn read_line(alloc: Global, line: &[u8]) -> Result<ScriptLine, OneFail>
    ensures good { IfOk result (λ s. line_fault line.now ≡ None) }
    ensures said { IfOk result (λ s. script_of line.now ≡ Some s) }
    ensures bad { IfErr result (Fails (line_fault line.now)) }
{
    let tree = tree_of_line(alloc, line)?;
    script_of_tree(alloc, &tree)
}

fn tree_of_line(alloc: Global, line: &[u8]) -> Result<Tree, OneFail>
    ensures said { IfOk result (λ tree. line_data line.now ≡ Some (view tree)) }
    ensures bad { IfErr result (FailsPlainly (not_json line.now)) }
{
    match Tree::from_slice(alloc, line) {
        Ok(tree) => Ok(tree),
        Err(error) => Err(json_fail(&error)),
    }
}

/// What a refusal of JSON is.
fn json_fail(error: &serde_json::Error) -> OneFail
    ensures { ((result ≡ OneFail.Memory) × IsMemory error.now) ⊎ ((result ≡ OneFail.Bad BadReason.NotJson) × ¬ IsMemory error.now) }
{
    if error.classify() == Category::Memory {
        OneFail::Memory
    } else {
        OneFail::Bad(BadReason::NotJson)
    }
}

#[tactic(auto, unfolding(crate::specs::Reasons::data_fault, crate::specs::Says::data_script))]
fn script_of_tree(alloc: Global, tree: &Tree) -> Result<ScriptLine, OneFail>
    ensures good { IfOk result (λ s. data_fault (view tree.now) ≡ None) }
    ensures said { IfOk result (λ s. data_script (view tree.now) ≡ Some s) }
    ensures bad { IfErr result (Fails (data_fault (view tree.now))) }
{
    match tree.as_object() {
        Some(object) => script_of_object(alloc, tree, object),
        None => Err(OneFail::Bad(BadReason::NotObject)),
    }
}

#[tactic(auto, unfolding(crate::specs::Reasons::data_fault, crate::specs::Says::data_script))]
fn script_of_object(
    alloc: Global,
    tree: &Tree,
    object: &Map<String, Tree>,
) -> Result<ScriptLine, OneFail>
    requires { as_object (view tree.now) ≡ Some (members_view object.now.entries) }
    ensures good { IfOk result (λ s. data_fault (view tree.now) ≡ None) }
    ensures said { IfOk result (λ s. data_script (view tree.now) ≡ Some s) }
    ensures bad { IfErr result (Fails (data_fault (view tree.now))) }
{
    let form = form_of_line(alloc, tree)?;
    test_keys(alloc, form, tree, object)?;
    let editor = editor(alloc, tree)?;
    let event = event_of_form(alloc, form, tree)?;
    Ok(ScriptLine { editor, event })
}

/// The form that the line's `do` names.
fn form_of_line(alloc: Global, tree: &Tree) -> Result<Form, OneFail>
    ensures right { IfOk result (λ f. bad_do (view tree.now) ≡ None) }
    ensures said { IfOk result (λ f. form_of (view tree.now) ≡ Some f) }
    ensures bad { IfErr result (FailsPlainly (bad_do (view tree.now))) }
{
    let Some(found) = tree.get(Field::Do.name()) else {
        return Err(missing(alloc, Field::Do));
    };
    let Some(word) = found.as_str() else {
        return Err(wrong(alloc, Field::Do));
    };
    match Form::named(word) {
        Some(form) => Ok(form),
        None => Err(OneFail::Bad(BadReason::UnknownDo)),
    }
}

/// Finds fault with the first key that the form has not.
fn test_keys(
    alloc: Global,
    form: Form,
    tree: &Tree,
    object: &Map<String, Tree>,
) -> Result<(), OneFail>
    requires { as_object (view tree.now) ≡ Some (members_view object.now.entries) }
    ensures right { IfOk result (λ _. unknown_field form (view tree.now) ≡ None) }
    ensures bad { IfErr result (FailsPlainly (unknown_field form (view tree.now))) }
{
    match unknown_key(object, form.known()) {
        Some(key) => Err(unknown(alloc, key)),
        None => Ok(()),
    }
}

/// What a line of a form says, beside its editor.
#[tactic(auto, unfolding(crate::specs::Reasons::event_fault, crate::specs::Says::event_of))]
fn event_of_form(alloc: Global, form: Form, tree: &Tree) -> Result<Event, OneFail>
    ensures good { IfOk result (λ e. event_fault form (view tree.now) ≡ None) }
    ensures said { IfOk result (λ e. event_of form (view tree.now) ≡ Some e) }
    ensures bad { IfErr result (Fails (event_fault form (view tree.now))) }
{
    match form {
        Form::Module => Ok(Event::Edit(Edit::AddModule)),
        Form::Variable => add_variable(alloc, tree),
        Form::Cell => add_cell(alloc, tree),
        Form::Define => define(alloc, tree),
        Form::Import => import(alloc, tree),
        Form::Delete => delete(alloc, tree),
        Form::Redefine => redefine(alloc, tree),
        Form::Derive => derive(alloc, tree),
        Form::Frame => Ok(Event::Frame),
        Form::Settle => settle(alloc, tree),
        Form::Rest => Ok(Event::Rest),
        Form::Dispose => Ok(Event::Dispose),
    }
}
