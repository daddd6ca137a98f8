//! Fields of one kind each: what they hold, and their faults.
ghost use Rattle.std.specs.Prelude.{◌≡◌, Some, None, IfOk, IfErr, option_map};
ghost use Rattle.serde_json.specs.View.{view};
ghost use Rattle.nb_parser.specs.Text.{cell_of};
ghost use Rattle.nb_lines.specs.Fields.{number_in, name_in as name_in_data};
ghost use Rattle.nb_doc.specs.declared.form.Field.TheVariants as field;
ghost use Rattle.nb_doc.specs.Faults.{Fails, cell_fail as cell_fail_of};
ghost use Rattle.nb_doc.specs.Forms.{needs, may, field_fault};
ghost use Rattle.nb_doc.specs.Contents.{name_fault, name_at, alias_or, truth_fault, observed_or, text_fault, cell_fault, cell_in, cell_at, reference_in as reference_in_data, reference_fault, reference_at, with_fault, with_at};

use crate::around::{Around, place_of};
use crate::fail::{here, missing, within_field, wrong, wrong_at};
use crate::form::Field;
use crate::reason::{DocFail, DocReason};
use crate::specifiers::specifiers_in;
use nb_lexer::is_name;
use nb_parser::{ParseError, parse_cell};
use nb_sheet::Specifiers;
use nb_syntax::Cell;
use serde_json::Value as Tree;
use std::alloc::Global;

/// A text that is a name.
pub fn name_in(tree: &Tree) -> Option<&str>
    ensures { option_map (λ s. s.now) result ≡ name_in_data (view tree.now) }
{
    match tree.as_str() {
        Some(text) if is_name(text) => Some(text),
        _ => None,
    }
}

/// The name in a field.
#[tactic(auto, unfolding(crate::specs::Forms::field_fault))]
pub fn name<'t>(alloc: Global, tree: &'t Tree, field: Field) -> Result<&'t str, DocFail>
    ensures right { IfOk result (λ s. field_fault (view tree.now) (needs field name_fault) ≡ None) }
    ensures said { IfOk result (λ s. name_at field (view tree.now) ≡ Some s.now) }
    ensures bad { IfErr result (Fails (field_fault (view tree.now) (needs field name_fault))) }
{
    match tree.get(field.name()) {
        Some(found) => match name_in(found) {
            Some(name) => Ok(name),
            None => Err(wrong_at(alloc, field)),
        },
        None => Err(missing(alloc, field)),
    }
}

/// The alias of an import: its name, where the item has none.
#[tactic(auto, unfolding(crate::specs::Forms::field_fault))]
pub fn alias<'t>(alloc: Global, tree: &'t Tree, name: &'t str) -> Result<&'t str, DocFail>
    ensures right { IfOk result (λ s. field_fault (view tree.now) (may field.Alias name_fault) ≡ None) }
    ensures said { IfOk result (λ s. alias_or name.now (view tree.now) ≡ s.now) }
    ensures bad { IfErr result (Fails (field_fault (view tree.now) (may field.Alias name_fault))) }
{
    match tree.get(Field::Alias.name()) {
        Some(found) => match name_in(found) {
            Some(alias) => Ok(alias),
            None => Err(wrong_at(alloc, Field::Alias)),
        },
        None => Ok(name),
    }
}

/// Whether a variable is observed: as said, where the item doesn't say.
#[tactic(auto, unfolding(crate::specs::Forms::field_fault))]
pub fn observed(alloc: Global, tree: &Tree, unsaid: bool) -> Result<bool, DocFail>
    ensures right { IfOk result (λ b. field_fault (view tree.now) (may field.Observed truth_fault) ≡ None) }
    ensures said { IfOk result (λ b. observed_or unsaid (view tree.now) ≡ b) }
    ensures bad { IfErr result (Fails (field_fault (view tree.now) (may field.Observed truth_fault))) }
{
    match tree.get(Field::Observed.name()) {
        Some(found) => match found.as_bool() {
            Some(observed) => Ok(observed),
            None => Err(wrong_at(alloc, Field::Observed)),
        },
        None => Ok(unsaid),
    }
}

/// The cell of an item.
#[tactic(auto, unfolding(crate::specs::Forms::field_fault))]
pub fn cell(alloc: Global, tree: &Tree) -> Result<Cell, DocFail>
    ensures right { IfOk result (λ c. field_fault (view tree.now) (needs field.Cell cell_fault) ≡ None) }
    ensures said { IfOk result (λ c. cell_at (view tree.now) ≡ Some c) }
    ensures bad { IfErr result (Fails (field_fault (view tree.now) (needs field.Cell cell_fault))) }
{
    match tree.get(Field::Cell.name()) {
        Some(found) => match cell_of_tree(alloc, found) {
            Ok(cell) => Ok(cell),
            Err(fail) => Err(within_field(alloc, Field::Cell, fail)),
        },
        None => Err(missing(alloc, Field::Cell)),
    }
}

fn cell_of_tree(alloc: Global, tree: &Tree) -> Result<Cell, DocFail>
    ensures right { IfOk result (λ c. cell_fault (view tree.now) ≡ None) }
    ensures said { IfOk result (λ c. cell_in (view tree.now) ≡ Some c) }
    ensures bad { IfErr result (Fails (cell_fault (view tree.now))) }
{
    match tree.as_str() {
        Some(text) => cell_of_text(alloc, text),
        None => Err(wrong(alloc)),
    }
}

fn cell_of_text(alloc: Global, text: &str) -> Result<Cell, DocFail>
    ensures said { IfOk result (λ c. cell_of text.now ≡ Some c) }
    ensures bad { IfErr result (Fails (text_fault text.now)) }
{
    match parse_cell(alloc, text) {
        Ok(cell) => Ok(cell),
        Err(fault) => Err(cell_fail(alloc, fault)),
    }
}

/// What the parser's fault is.
fn cell_fail(alloc: Global, fault: ParseError) -> DocFail
    ensures { result ≡ cell_fail_of fault }
{
    match fault {
        ParseError::Memory => DocFail::Memory,
        _ => here(alloc, DocReason::BadCell(fault)),
    }
}

/// The position of the module that is meant.
#[tactic(auto, unfolding(crate::specs::Contents::reference_in))]
fn reference_in(around: &Around, tree: &Tree) -> Option<usize>
    ensures { result ≡ reference_in_data around.now (view tree.now) }
{
    if around.named {
        let name = tree.as_str()?;
        place_of(around.names.as_slice(), name)
    } else {
        match tree.as_u64() {
            Some(number) if number < around.modules as u64 => Some(number as usize),
            _ => None,
        }
    }
}

/// The position of the module that a field means.
#[tactic(auto, unfolding(crate::specs::Forms::field_fault))]
pub fn reference(
    alloc: Global,
    around: &Around,
    tree: &Tree,
    field: Field,
) -> Result<usize, DocFail>
    ensures right { IfOk result (λ k. field_fault (view tree.now) (needs field (reference_fault around.now)) ≡ None) }
    ensures said { IfOk result (λ k. reference_at around.now field (view tree.now) ≡ Some k) }
    ensures bad { IfErr result (Fails (field_fault (view tree.now) (needs field (reference_fault around.now)))) }
{
    match tree.get(field.name()) {
        Some(found) => match reference_in(around, found) {
            Some(place) => Ok(place),
            None => Err(wrong_at(alloc, field)),
        },
        None => Err(missing(alloc, field)),
    }
}

/// The specifiers in the field `with`.
#[tactic(auto, unfolding(crate::specs::Forms::field_fault))]
pub fn specifiers(alloc: Global, tree: &Tree) -> Result<Specifiers, DocFail>
    ensures right { IfOk result (λ s. field_fault (view tree.now) (needs field.With with_fault) ≡ None) }
    ensures said { IfOk result (λ s. with_at (view tree.now) ≡ Some s) }
    ensures bad { IfErr result (Fails (field_fault (view tree.now) (needs field.With with_fault))) }
{
    match tree.get(Field::With.name()) {
        Some(found) => match specifiers_in(alloc, found)? {
            Some(specifiers) => Ok(specifiers),
            None => Err(wrong_at(alloc, Field::With)),
        },
        None => Err(missing(alloc, Field::With)),
    }
}
