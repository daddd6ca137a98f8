//! The lines that edit, form by form: their fields in order, and then the cell.
ghost use Rattle.std.specs.Prelude.{◌≡◌, None, Some, IfOk, IfErr};
ghost use Rattle.serde_json.specs.View.{view};
ghost use Rattle.nb_parser.specs.Text.{cell_of};
ghost use Rattle.nb_lines.specs.declared.form.Form.TheVariants as form;
ghost use Rattle.nb_lines.specs.Reasons.{text_fault, name_fault, event_fault};
ghost use Rattle.nb_lines.specs.Says.{event_of};
ghost use Rattle.nb_lines.specs.Reads.{Fails, cell_fail};

use crate::fields::{alias, name, observed, text, whole};
use crate::form::Field;
use crate::script::{BadReason, OneFail};
use crate::specifiers::specifiers;
use nb_log::Event;
use nb_parser::{ParseError, parse_cell};
use nb_sheet::Edit;
use nb_syntax::Cell;
use nb_value::Text;
use serde_json::Value as Tree;
use std::alloc::Global;

/// A line that makes a variable.
#[tactic(auto, unfolding(crate::specs::Reasons::event_fault, crate::specs::Says::event_of))]
pub fn add_variable(alloc: Global, tree: &Tree) -> Result<Event, OneFail>
    ensures good { IfOk result (λ e. event_fault form.Variable (view tree.now) ≡ None) }
    ensures said { IfOk result (λ e. event_of form.Variable (view tree.now) ≡ Some e) }
    ensures bad { IfErr result (Fails (event_fault form.Variable (view tree.now))) }
{
    let module = whole(alloc, tree, Field::Module)?;
    let observed = observed(alloc, tree)?;
    Ok(Event::Edit(Edit::AddVariable { module, observed }))
}

/// A line that makes a variable of a cell.
#[tactic(auto, unfolding(crate::specs::Reasons::event_fault, crate::specs::Says::event_of))]
pub fn add_cell(alloc: Global, tree: &Tree) -> Result<Event, OneFail>
    ensures good { IfOk result (λ e. event_fault form.Cell (view tree.now) ≡ None) }
    ensures said { IfOk result (λ e. event_of form.Cell (view tree.now) ≡ Some e) }
    ensures bad { IfErr result (Fails (event_fault form.Cell (view tree.now))) }
{
    let module = whole(alloc, tree, Field::Module)?;
    let text = text(alloc, tree, Field::Cell)?;
    let observed = observed(alloc, tree)?;
    let cell = cell(alloc, text)?;
    Ok(Event::Edit(Edit::AddCell {
        module,
        cell,
        observed,
    }))
}

/// A line that defines a variable.
#[tactic(auto, unfolding(crate::specs::Reasons::event_fault, crate::specs::Says::event_of))]
pub fn define(alloc: Global, tree: &Tree) -> Result<Event, OneFail>
    ensures good { IfOk result (λ e. event_fault form.Define (view tree.now) ≡ None) }
    ensures said { IfOk result (λ e. event_of form.Define (view tree.now) ≡ Some e) }
    ensures bad { IfErr result (Fails (event_fault form.Define (view tree.now))) }
{
    let variable = whole(alloc, tree, Field::Variable)?;
    let text = text(alloc, tree, Field::Cell)?;
    let cell = cell(alloc, text)?;
    Ok(Event::Edit(Edit::Define { variable, cell }))
}

/// A line that imports a name.
#[tactic(auto, unfolding(crate::specs::Reasons::event_fault, crate::specs::Says::event_of))]
pub fn import(alloc: Global, tree: &Tree) -> Result<Event, OneFail>
    ensures good { IfOk result (λ e. event_fault form.Import (view tree.now) ≡ None) }
    ensures said { IfOk result (λ e. event_of form.Import (view tree.now) ≡ Some e) }
    ensures bad { IfErr result (Fails (event_fault form.Import (view tree.now))) }
{
    let variable = whole(alloc, tree, Field::Variable)?;
    let name = name(alloc, tree, Field::Name)?;
    let alias = alias(alloc, tree, name)?;
    let from = whole(alloc, tree, Field::From)?;
    Ok(Event::Edit(Edit::Import {
        variable,
        name: Text::from_str(alloc, name)?,
        alias: Text::from_str(alloc, alias)?,
        from,
    }))
}

/// A line that takes a variable's definition away.
#[tactic(auto, unfolding(crate::specs::Reasons::event_fault, crate::specs::Says::event_of))]
pub fn delete(alloc: Global, tree: &Tree) -> Result<Event, OneFail>
    ensures good { IfOk result (λ e. event_fault form.Delete (view tree.now) ≡ None) }
    ensures said { IfOk result (λ e. event_of form.Delete (view tree.now) ≡ Some e) }
    ensures bad { IfErr result (Fails (event_fault form.Delete (view tree.now))) }
{
    let variable = whole(alloc, tree, Field::Variable)?;
    Ok(Event::Edit(Edit::Delete { variable }))
}

/// A line that defines the variable of a name anew.
#[tactic(auto, unfolding(crate::specs::Reasons::event_fault, crate::specs::Says::event_of))]
pub fn redefine(alloc: Global, tree: &Tree) -> Result<Event, OneFail>
    ensures good { IfOk result (λ e. event_fault form.Redefine (view tree.now) ≡ None) }
    ensures said { IfOk result (λ e. event_of form.Redefine (view tree.now) ≡ Some e) }
    ensures bad { IfErr result (Fails (event_fault form.Redefine (view tree.now))) }
{
    let module = whole(alloc, tree, Field::Module)?;
    let text = text(alloc, tree, Field::Cell)?;
    let cell = named_cell(alloc, text)?;
    Ok(Event::Edit(Edit::Redefine { module, cell }))
}

/// A line that derives a module.
#[tactic(auto, unfolding(crate::specs::Reasons::event_fault, crate::specs::Says::event_of))]
pub fn derive(alloc: Global, tree: &Tree) -> Result<Event, OneFail>
    ensures good { IfOk result (λ e. event_fault form.Derive (view tree.now) ≡ None) }
    ensures said { IfOk result (λ e. event_of form.Derive (view tree.now) ≡ Some e) }
    ensures bad { IfErr result (Fails (event_fault form.Derive (view tree.now))) }
{
    let module = whole(alloc, tree, Field::Module)?;
    let with = specifiers(alloc, tree)?;
    let source = whole(alloc, tree, Field::Source)?;
    Ok(Event::Edit(Edit::Derive {
        module,
        with,
        source,
    }))
}

/// The cell that a text is.
fn cell(alloc: Global, text: &str) -> Result<Cell, OneFail>
    ensures said { IfOk result (λ c. cell_of text.now ≡ Some c) }
    ensures bad { IfErr result (Fails (text_fault text.now)) }
{
    match parse_cell(alloc, text) {
        Ok(cell) => Ok(cell),
        Err(fault) => Err(cell_fail(fault)),
    }
}

/// What the parser's fault is.
fn cell_fail(fault: ParseError) -> OneFail
    ensures { result ≡ cell_fail fault }
{
    match fault {
        ParseError::Memory => OneFail::Memory,
        _ => OneFail::Bad(BadReason::BadCell(fault)),
    }
}

/// The cell that a text is, which has a name.
fn named_cell(alloc: Global, text: &str) -> Result<Cell, OneFail>
    ensures said { IfOk result (λ c. cell_of text.now ≡ Some c) }
    ensures good { IfOk result (λ c. name_fault text.now ≡ None) }
    ensures bad { IfErr result (Fails (name_fault text.now)) }
{
    let cell = cell(alloc, text)?;
    if cell.name.is_some() {
        Ok(cell)
    } else {
        Err(OneFail::Bad(BadReason::Unnamed))
    }
}
