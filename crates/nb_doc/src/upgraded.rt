//! Documents in version 2.
ghost use Rattle.std.specs.Prelude.{◌≡◌, ◌≤◌, ℕ, List, false, Some, None, Err, IfOk, IfErr, OnOk, option_map, string_bytes};
ghost use Rattle.serde_json.specs.View.{view, items_view};
ghost use Rattle.serde_json.specs.Data.{depth};
ghost use Rattle.serde_json.specs.Read.{max_depth};
ghost use Rattle.serde_json.specs.Written.{has_float};
ghost use Rattle.nb_lines.specs.Reasons.{line_data};
ghost use Rattle.nb_doc.specs.declared.form.Field.TheVariants as field;
ghost use Rattle.nb_doc.specs.declared.reason.DocReason.{DocReason as Reason};
ghost use Rattle.nb_doc.specs.declared.reason.DocFail.TheVariants.{Bad};
ghost use Rattle.nb_doc.specs.Faults.{Fails, IsTold};
ghost use Rattle.nb_doc.specs.Documents.{first_fault, document_of, UnlessMemory};
ghost use Rattle.nb_doc.specs.Upgraded.{with_field, number_at as number_at_data, array_at as array_at_data, module_name, by_name, items_by_name, with_items as with_items_data, named_module as named_module_data, named_modules as named_modules_data, with_modules as with_modules_data, upgraded_by, upgraded_data, json_line as json_line_of, upgraded, UpgradesDocument, IsReadAs};

use crate::arrays::keep;
use crate::form::Field;
use crate::read::{parts_of_tree, tree_of};
use crate::reason::DocFail;
use nb_value::Bytes;
use serde_json::{Value as Tree, put};
use std::alloc::{AllocError, Global};

/// The document that the bytes are, in version 2: compact JSON and a line feed; or its first fault, as `read_document`
/// tells it.
///
/// What is of version 2 stays as it was read. In a document of version 1 each module gets a name, which is `m` and its
/// position, and is meant by it; all other fields stay, and none comes that wasn't there. It takes time and memory linear
/// in the bytes.
pub fn upgrade(alloc: Global, bytes: &[u8]) -> Result<Bytes, DocFail>
    ensures text { UpgradesDocument bytes.now result }
    // No other fault is answered, and none where there is none.
    ensures only { (path : List ℕ) (reason : Reason) → IsTold (first_fault bytes.now) path reason → UnlessMemory result (result ≡ Err (Bad path reason)) }
    // What comes has no fault, and is read as the same document.
    ensures same { IfOk result (λ b. IsReadAs (document_of bytes.now) b) }
{
    upgraded_bytes(alloc, bytes)
}

#[tactic(auto, unfolding(crate::specs::Documents::first_fault, crate::specs::Upgraded::upgraded))]
fn upgraded_bytes(alloc: Global, bytes: &[u8]) -> Result<Bytes, DocFail>
    ensures good { IfOk result (λ b. first_fault bytes.now ≡ None) }
    ensures said { IfOk result (λ b. upgraded bytes.now ≡ Some b) }
    ensures data { IfOk result (λ b. line_data b ≡ option_map upgraded_data (line_data bytes.now)) }
    ensures bad { IfErr result (Fails (first_fault bytes.now)) }
{
    let mut tree = tree_of(alloc, bytes)?;
    let named = parts_of_tree(alloc, &tree)?.named;
    upgrade_tree(alloc, named, &mut tree)?;
    Ok(json_line(alloc, &tree)?)
}

/// Compact JSON and a line feed, of what has no number that isn't whole.
fn json_line(alloc: Global, tree: &Tree) -> Result<Bytes, AllocError>
    requires { has_float (view tree.now) ≡ false }
    ensures text { IfOk result (λ b. b ≡ json_line_of (view tree.now)) }
    ensures data { IfOk result (λ b. depth (view tree.now) ≤ max_depth → line_data b ≡ Some (view tree.now)) }
{
    let mut bytes = tree.to_vec(alloc)?;
    bytes.push(b'\n')?;
    Ok(Bytes::from_vec(bytes))
}

/// Makes the tree of a document one of version 2.
#[tactic(auto, unfolding(crate::specs::Upgraded::upgraded_by))]
fn upgrade_tree(alloc: Global, named: bool, tree: &mut Tree) -> Result<(), AllocError>
    ensures { OnOk result (view tree.new ≡ upgraded_by named (view tree.old)) }
{
    if named {
        return Ok(());
    }
    set_modules(alloc, tree)?;
    set_field(alloc, tree, Field::Notebook, Tree::from(2u64))
}

/// Gives each module of a document its name.
#[tactic(auto, unfolding(crate::specs::Upgraded::with_modules), using(crate::proofs::UpgradeLemmas::view_array))]
fn set_modules(alloc: Global, tree: &mut Tree) -> Result<(), AllocError>
    ensures { OnOk result (view tree.new ≡ with_modules_data (view tree.old)) }
{
    let modules = match array_at(tree, Field::Modules) {
        Some(modules) => named_modules(alloc, modules)?,
        None => return Ok(()),
    };
    set_field(alloc, tree, Field::Modules, Tree::Array(modules))
}

fn named_modules(alloc: Global, modules: &Vec<Tree>) -> Result<Vec<Tree>, AllocError>
    ensures { IfOk result (λ v. items_view v.items ≡ named_modules_data 0 (items_view modules.now.items)) }
{
    let mut found = Vec::new(alloc);
    for (k, module) in modules.iter().enumerate() {
        keep(&mut found, named_module(alloc, k, module)?)?;
    }
    Ok(found)
}

/// A module with the name that its position gives it.
#[tactic(auto, unfolding(crate::specs::Upgraded::named_module))]
fn named_module(alloc: Global, place: usize, module: &Tree) -> Result<Tree, AllocError>
    ensures { IfOk result (λ t. view t ≡ named_module_data place (view module.now)) }
{
    let mut named = module.clone()?;
    set_name(alloc, &mut named, Field::Derive)?;
    set_name(alloc, &mut named, Field::Source)?;
    set_items(alloc, &mut named)?;
    let name = name_of(alloc, place as u64)?;
    set_field(alloc, &mut named, Field::Name, Tree::String(name))?;
    Ok(named)
}

/// Has the items of a module, if it has some, import by name.
#[tactic(auto, unfolding(crate::specs::Upgraded::with_items), using(crate::proofs::UpgradeLemmas::view_array))]
fn set_items(alloc: Global, module: &mut Tree) -> Result<(), AllocError>
    ensures { OnOk result (view module.new ≡ with_items_data (view module.old)) }
{
    let items = match array_at(module, Field::Items) {
        Some(items) => named_items(alloc, items)?,
        None => return Ok(()),
    };
    set_field(alloc, module, Field::Items, Tree::Array(items))
}

fn named_items(alloc: Global, items: &Vec<Tree>) -> Result<Vec<Tree>, AllocError>
    ensures { IfOk result (λ v. items_view v.items ≡ items_by_name (items_view items.now.items)) }
{
    let mut found = Vec::new(alloc);
    for item in items {
        keep(&mut found, named_item(alloc, item)?)?;
    }
    Ok(found)
}

fn named_item(alloc: Global, item: &Tree) -> Result<Tree, AllocError>
    ensures { IfOk result (λ t. view t ≡ by_name field.From (view item.now)) }
{
    let mut named = item.clone()?;
    set_name(alloc, &mut named, Field::From)?;
    Ok(named)
}

/// Puts the name of a module in place of its position, if an object has one in this field.
#[tactic(auto, unfolding(crate::specs::Upgraded::by_name))]
fn set_name(alloc: Global, tree: &mut Tree, field: Field) -> Result<(), AllocError>
    ensures { OnOk result (view tree.new ≡ by_name field (view tree.old)) }
{
    match number_at(tree, field) {
        Some(place) => {
            let name = name_of(alloc, place)?;
            set_field(alloc, tree, field, Tree::String(name))
        }
        None => Ok(()),
    }
}

/// Has this in a field of an object. Its other fields stay.
#[tactic(auto, unfolding(crate::specs::Upgraded::with_field), using(crate::proofs::UpgradeLemmas::view_object))]
fn set_field(alloc: Global, tree: &mut Tree, field: Field, content: Tree) -> Result<(), AllocError>
    ensures { OnOk result (view tree.new ≡ with_field field (view content) (view tree.old)) }
{
    match tree.as_object_mut() {
        Some(object) => put(object, alloc, field.name(), content),
        None => Ok(()),
    }
}

/// The number that an object has in this field.
fn number_at(tree: &Tree, field: Field) -> Option<u64>
    ensures { result ≡ number_at_data field (view tree.now) }
{
    tree.get(field.name()).and_then(Tree::as_u64)
}

/// The array that an object has in this field.
fn array_at(tree: &Tree, field: Field) -> Option<&Vec<Tree>>
    ensures { option_map (λ v. items_view v.now.items) result ≡ array_at_data field (view tree.now) }
{
    tree.get(field.name()).and_then(Tree::as_array)
}

/// The name of the module at a position.
fn name_of(alloc: Global, place: u64) -> Result<String, AllocError>
    ensures { IfOk result (λ s. string_bytes s ≡ module_name place) }
{
    format!(in alloc; "m{place}")
}
