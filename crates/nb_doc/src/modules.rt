//! The modules of a document, one after another.
ghost use Rattle.std.specs.Prelude.{◌≡◌, ◌<◌, ◌^◌, Some, None, IfOk, IfErr, OnOk};
ghost use Rattle.serde_json.specs.View.{view, items_view};
ghost use Rattle.nb_doc.specs.declared.form.Field.TheVariants as field;
ghost use Rattle.std.specs.Fmt.{decimal};
ghost use Rattle.nb_doc.specs.Faults.{Fails, in_part};
ghost use Rattle.nb_doc.specs.Forms.{needs, field_fault};
ghost use Rattle.nb_doc.specs.Modules.{start, next, module_fault, module_of, modules_fault_from, modules_from, few_modules_fault, modules_fault, modules_in, modules_at};

use crate::around::{Around, no_modules};
use crate::arrays::{count, keep};
use crate::fail::{missing, within_field, within_place, wrong};
use crate::form::Field;
use crate::module::{Module, read_module};
use crate::reason::DocFail;
use serde_json::Value as Tree;
use std::alloc::Global;

/// The most modules that a document may have.
const MOST_MODULES: usize = 64;

/// The modules in the document's field.
#[tactic(auto, unfolding(crate::specs::Forms::field_fault))]
pub fn modules_field(alloc: Global, named: bool, tree: &Tree) -> Result<Vec<Module>, DocFail>
    ensures right { IfOk result (λ m. field_fault (view tree.now) (needs field.Modules (modules_fault named)) ≡ None) }
    ensures said { IfOk result (λ m. modules_at named (view tree.now) ≡ Some m.items) }
    ensures bad { IfErr result (Fails (field_fault (view tree.now) (needs field.Modules (modules_fault named)))) }
{
    match tree.get(Field::Modules.name()) {
        Some(found) => match read_modules(alloc, named, found) {
            Ok(modules) => Ok(modules),
            Err(fail) => Err(within_field(alloc, Field::Modules, fail)),
        },
        None => Err(missing(alloc, Field::Modules)),
    }
}

fn read_modules(alloc: Global, named: bool, tree: &Tree) -> Result<Vec<Module>, DocFail>
    ensures right { IfOk result (λ m. modules_fault named (view tree.now) ≡ None) }
    ensures said { IfOk result (λ m. modules_in named (view tree.now) ≡ Some m.items) }
    ensures bad { IfErr result (Fails (modules_fault named (view tree.now))) }
{
    match tree.as_array() {
        Some(items) => few_modules(alloc, named, items),
        None => Err(wrong(alloc)),
    }
}

fn few_modules(alloc: Global, named: bool, items: &Vec<Tree>) -> Result<Vec<Module>, DocFail>
    ensures right { IfOk result (λ m. few_modules_fault named (items_view items.now.items) ≡ None) }
    ensures said { IfOk result (λ m. modules_from (start named) (items_view items.now.items) ≡ Some m.items) }
    ensures bad { IfErr result (Fails (few_modules_fault named (items_view items.now.items))) }
{
    if count(items) <= MOST_MODULES {
        each_module(alloc, named, items)
    } else {
        Err(wrong(alloc))
    }
}

/// The module at a position.
fn module_at(
    alloc: Global,
    around: &mut Around,
    place: usize,
    tree: &Tree,
) -> Result<Module, DocFail>
    requires { around.old.modules < 2 ^ 63 }
    ensures right { IfOk result (λ m. module_fault around.old (view tree.now) ≡ None) }
    ensures said { IfOk result (λ m. module_of around.old (view tree.now) ≡ Some m) }
    ensures next { OnOk result (around.new ≡ next around.old (view tree.now)) }
    ensures bad { IfErr result (Fails (in_part (decimal place) (module_fault around.old (view tree.now)))) }
{
    match read_module(alloc, around, tree) {
        Ok(module) => Ok(module),
        Err(fail) => Err(within_place(alloc, place, fail)),
    }
}

#[tactic(auto, unfolding(crate::specs::Modules::next))]
fn each_module(alloc: Global, named: bool, items: &Vec<Tree>) -> Result<Vec<Module>, DocFail>
    ensures right { IfOk result (λ m. modules_fault_from (start named) (items_view items.now.items) ≡ None) }
    ensures said { IfOk result (λ m. modules_from (start named) (items_view items.now.items) ≡ Some m.items) }
    ensures bad { IfErr result (Fails (modules_fault_from (start named) (items_view items.now.items))) }
{
    let mut around = no_modules(alloc, named);
    let mut found = Vec::new(alloc);
    for (k, item) in items.iter().enumerate() {
        keep(&mut found, module_at(alloc, &mut around, k, item)?)?;
    }
    Ok(found)
}
