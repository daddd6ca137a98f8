//! Reading a document.
ghost use Rattle.std.specs.Prelude.{◌≡◌, ◌≤◌, ◌⊎◌, ℕ, List, [], length, Some, None, Err, IfOk, IfErr};
ghost use Rattle.serde_json.specs.Errors.{IsMemory};
ghost use Rattle.serde_json.specs.View.{view};
ghost use Rattle.nb_lines.specs.Reasons.{line_data};
ghost use Rattle.nb_doc.specs.declared.form.Field.TheVariants as field;
ghost use Rattle.nb_doc.specs.declared.reason.DocReason.{DocReason as Reason};
ghost use Rattle.nb_doc.specs.declared.reason.DocReason.TheVariants as reason;
ghost use Rattle.nb_doc.specs.declared.reason.DocFail.TheVariants.{Bad};
ghost use Rattle.nb_doc.specs.Faults.{Fails, IsTold};
ghost use Rattle.nb_doc.specs.Forms.{needs, field_fault};
ghost use Rattle.nb_doc.specs.Modules.{modules_at};
ghost use Rattle.nb_doc.specs.Loading.{builtins_of, loaders_of, HasDistinctKeys, HasWords};
ghost use Rattle.nb_doc.specs.Documents.{version_in as version_in_data, version_fault, version_at, is_named, data_fault, data_document, first_fault, document_of, ReadsDocument, UnlessMemory};

use crate::builtins::builtins_field;
use crate::document::{Document, Loaders};
use crate::fail::{here, missing, wrong_at};
use crate::form::Field;
use crate::lines::lines_of;
use crate::loaders::loaders_field;
use crate::module::Module;
use crate::modules::modules_field;
use crate::object::test_object;
use crate::reason::{DocFail, DocReason};
use nb_value::{Pairs, Value};
use serde_json::{Category, Value as Tree};
use std::alloc::Global;

/// The document that the bytes are, of version 1 or 2; or its first fault.
///
/// What is tested comes in this order: that the whole is JSON and an object; then each object from its beginning: that it is
/// one, the first unknown field in byte order, and its fields in their order, each missing, wrong or, where it is an array
/// or an object, faulty inside. It takes time and memory linear in the bytes, but for derived modules, whose variables are
/// counted copy by copy.
pub fn read_document(alloc: Global, bytes: &[u8]) -> Result<Document, DocFail>
    ensures document { ReadsDocument bytes.now result }
    // No other fault is answered, and none where there is none.
    ensures only { (path : List ℕ) (reason : Reason) → IsTold (first_fault bytes.now) path reason → UnlessMemory result (result ≡ Err (Bad path reason)) }
    // There are at most 65,536 builtins, no two loaders have one key, and each program has a name.
    ensures few { IfOk result (λ d. length d.builtins ≤ 65536) }
    ensures keys { IfOk result (λ d. HasDistinctKeys d.loaders) }
    ensures words { IfOk result (λ d. HasWords d.loaders) }
{
    document_of_bytes(alloc, bytes)
}

#[tactic(auto, unfolding(crate::specs::Documents::first_fault, crate::specs::Documents::document_of))]
fn document_of_bytes(alloc: Global, bytes: &[u8]) -> Result<Document, DocFail>
    ensures good { IfOk result (λ d. first_fault bytes.now ≡ None) }
    ensures said { IfOk result (λ d. document_of bytes.now ≡ Some d) }
    ensures bad { IfErr result (Fails (first_fault bytes.now)) }
{
    let tree = tree_of(alloc, bytes)?;
    document_of_tree(alloc, &tree)
}

/// The JSON that the bytes are.
pub fn tree_of(alloc: Global, bytes: &[u8]) -> Result<Tree, DocFail>
    ensures said { IfOk result (λ tree. line_data bytes.now ≡ Some (view tree)) }
    ensures bad { IfErr result (Fails (first_fault bytes.now)) }
{
    match Tree::from_slice(alloc, bytes) {
        Ok(tree) => Ok(tree),
        Err(error) => Err(json_fail(alloc, &error)),
    }
}

/// What a refusal of JSON is.
fn json_fail(alloc: Global, error: &serde_json::Error) -> DocFail
    ensures { ((result ≡ DocFail.Memory) × IsMemory error.now) ⊎ ((result ≡ Bad [] reason.NotJson) × ¬ IsMemory error.now) }
{
    if error.classify() == Category::Memory {
        DocFail::Memory
    } else {
        here(alloc, DocReason::NotJson)
    }
}

/// Whether modules have names, as the version says.
fn version_in(tree: &Tree) -> Option<bool>
    ensures { result ≡ version_in_data (view tree.now) }
{
    match tree.as_u64() {
        Some(1) => Some(false),
        Some(2) => Some(true),
        _ => None,
    }
}

#[tactic(auto, unfolding(crate::specs::Forms::field_fault))]
fn version_field(alloc: Global, tree: &Tree) -> Result<bool, DocFail>
    ensures right { IfOk result (λ v. field_fault (view tree.now) (needs field.Notebook version_fault) ≡ None) }
    ensures said { IfOk result (λ v. version_at (view tree.now) ≡ Some v) }
    ensures bad { IfErr result (Fails (field_fault (view tree.now) (needs field.Notebook version_fault))) }
{
    match tree.get(Field::Notebook.name()) {
        Some(found) => match version_in(found) {
            Some(named) => Ok(named),
            None => Err(wrong_at(alloc, Field::Notebook)),
        },
        None => Err(missing(alloc, Field::Notebook)),
    }
}

#[tactic(auto, unfolding(crate::specs::Documents::data_document))]
fn document_of_tree(alloc: Global, tree: &Tree) -> Result<Document, DocFail>
    ensures good { IfOk result (λ d. data_fault (view tree.now) ≡ None) }
    ensures said { IfOk result (λ d. data_document (view tree.now) ≡ Some d) }
    ensures bad { IfErr result (Fails (data_fault (view tree.now))) }
{
    let Parts {
        builtins,
        modules,
        loaders,
        ..
    } = parts_of_tree(alloc, tree)?;
    let lines = lines_of(alloc, modules)?;
    Ok(Document {
        builtins,
        lines,
        loaders,
    })
}

/// What a document has in its fields.
#[derive(Drop)]
pub struct Parts {
    /// Whether its modules have names, as they have in version 2.
    pub named: bool,
    pub builtins: Pairs<Value>,
    pub modules: Vec<Module>,
    pub loaders: Loaders,
}

/// The fields of a document, each in its turn.
#[tactic(auto, unfolding(crate::specs::Forms::object_fault, crate::specs::Documents::data_fault))]
pub fn parts_of_tree(alloc: Global, tree: &Tree) -> Result<Parts, DocFail>
    ensures good { IfOk result (λ p. data_fault (view tree.now) ≡ None) }
    ensures named { IfOk result (λ p. is_named (view tree.now) ≡ p.named) }
    ensures builtins { IfOk result (λ p. builtins_of (view tree.now) ≡ p.builtins) }
    ensures modules { IfOk result (λ p. modules_at p.named (view tree.now) ≡ Some p.modules.items) }
    ensures loaders { IfOk result (λ p. loaders_of (view tree.now) ≡ p.loaders) }
    ensures bad { IfErr result (Fails (data_fault (view tree.now))) }
{
    test_object(
        alloc,
        tree,
        &[
            Field::Notebook,
            Field::Builtins,
            Field::Modules,
            Field::Loaders,
        ],
    )?;
    let named = version_field(alloc, tree)?;
    let builtins = builtins_field(alloc, tree)?;
    let modules = modules_field(alloc, named, tree)?;
    let loaders = loaders_field(alloc, tree)?;
    Ok(Parts {
        named,
        builtins,
        modules,
        loaders,
    })
}
