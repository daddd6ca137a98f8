//! One module of a document.
ghost use Rattle.std.specs.Prelude.{◌≡◌, ◌∷◌, [], ◌<◌, ◌^◌, Some, None, IfOk, IfErr, OnOk, option_map};
ghost use Rattle.serde_json.specs.View.{view};
ghost use Rattle.nb_doc.specs.declared.form.Field.TheVariants as field;
ghost use Rattle.nb_doc.specs.Faults.{Fails};
ghost use Rattle.nb_doc.specs.Forms.{field_fault};
ghost use Rattle.nb_doc.specs.Contents.{name_at};
ghost use Rattle.nb_doc.specs.Modules.{listed, own_name, name_row, name_part, known, derived_rows, plain_rows, rows_fault, module_fault, module_of, derived_module, plain_module, next};

use crate::around::{Around, enter, place_of};
use crate::contents::{name_in, reference, specifiers};
use crate::fail::{at_field, missing, wrong_at};
use crate::form::Field;
use crate::item::{ItemList, items_field};
use crate::object::{is_there, test_object};
use crate::reason::{DocFail, DocReason};
use nb_sheet::Specifiers;
use serde_json::Value as Tree;
use std::alloc::Global;

/// A module of a document. Others stand in it by their positions.
#[derive(Drop)]
pub enum Module {
    /// A module of its own items.
    Plain(ItemList),
    /// A module that is derived from another, with variables of the source in place of some.
    Derived {
        derive: usize,
        with: Specifiers,
        source: usize,
    },
}

/// The fields that a derived module may have.
fn derived_fields(named: bool) -> &'static [Field]
    ensures { result.now ≡ known named (field.Derive ∷ field.With ∷ field.Source ∷ []) }
{
    if named {
        &[Field::Name, Field::Derive, Field::With, Field::Source]
    } else {
        &[Field::Derive, Field::With, Field::Source]
    }
}

/// The fields that a plain module may have.
fn plain_fields(named: bool) -> &'static [Field]
    ensures { result.now ≡ known named (field.Items ∷ []) }
{
    if named {
        &[Field::Name, Field::Items]
    } else {
        &[Field::Items]
    }
}

/// The module's name, if modules have names. No earlier one has it.
#[tactic(auto, unfolding(crate::specs::Forms::field_fault))]
fn own_name<'t>(alloc: Global, around: &Around, tree: &'t Tree) -> Result<Option<&'t str>, DocFail>
    ensures right { IfOk result (λ n. name_part around.now (view tree.now) ≡ None) }
    ensures said { IfOk result (λ n. own_name around.now (view tree.now) ≡ listed (option_map (λ s. s.now) n)) }
    ensures bad { IfErr result (Fails (name_part around.now (view tree.now))) }
{
    if around.named {
        Ok(Some(new_name(alloc, around, tree)?))
    } else {
        Ok(None)
    }
}

#[tactic(auto, unfolding(crate::specs::Forms::field_fault))]
fn new_name<'t>(alloc: Global, around: &Around, tree: &'t Tree) -> Result<&'t str, DocFail>
    ensures right { IfOk result (λ n. field_fault (view tree.now) (name_row around.now) ≡ None) }
    ensures said { IfOk result (λ n. name_at field.Name (view tree.now) ≡ Some n.now) }
    ensures bad { IfErr result (Fails (field_fault (view tree.now) (name_row around.now))) }
{
    match tree.get(Field::Name.name()) {
        Some(found) => match name_in(found) {
            Some(name) => match place_of(around.names.as_slice(), name) {
                Some(_) => Err(at_field(alloc, Field::Name, DocReason::TwoModules)),
                None => Ok(name),
            },
            None => Err(wrong_at(alloc, Field::Name)),
        },
        None => Err(missing(alloc, Field::Name)),
    }
}

/// A derived module.
#[tactic(auto, unfolding(crate::specs::Modules::rows_fault, crate::specs::Modules::next))]
fn derived_module(alloc: Global, around: &mut Around, tree: &Tree) -> Result<Module, DocFail>
    requires { around.old.modules < 2 ^ 63 }
    ensures right { IfOk result (λ m. rows_fault around.old (derived_rows around.old) (view tree.now) ≡ None) }
    ensures said { IfOk result (λ m. derived_module around.old (view tree.now) ≡ Some m) }
    ensures next { OnOk result (around.new ≡ next around.old (view tree.now)) }
    ensures bad { IfErr result (Fails (rows_fault around.old (derived_rows around.old) (view tree.now))) }
{
    test_object(alloc, tree, derived_fields(around.named))?;
    let name = own_name(alloc, around, tree)?;
    let derive = reference(alloc, around, tree, Field::Derive)?;
    let with = specifiers(alloc, tree)?;
    let source = reference(alloc, around, tree, Field::Source)?;
    enter(alloc, around, name)?;
    Ok(Module::Derived {
        derive,
        with,
        source,
    })
}

/// A module of its own items.
#[tactic(auto, unfolding(crate::specs::Modules::rows_fault, crate::specs::Modules::next))]
fn plain_module(alloc: Global, around: &mut Around, tree: &Tree) -> Result<Module, DocFail>
    requires { around.old.modules < 2 ^ 63 }
    ensures right { IfOk result (λ m. rows_fault around.old (plain_rows around.old (view tree.now)) (view tree.now) ≡ None) }
    ensures said { IfOk result (λ m. plain_module around.old (view tree.now) ≡ Some m) }
    ensures next { OnOk result (around.new ≡ next around.old (view tree.now)) }
    ensures bad { IfErr result (Fails (rows_fault around.old (plain_rows around.old (view tree.now)) (view tree.now))) }
{
    test_object(alloc, tree, plain_fields(around.named))?;
    let name = own_name(alloc, around, tree)?;
    enter(alloc, around, name)?;
    let items = items_field(alloc, around, tree)?;
    Ok(Module::Plain(items))
}

/// One module, which may refer to those before it, and which those after it may refer to.
#[tactic(auto, unfolding(crate::specs::Modules::module_fault, crate::specs::Modules::module_of))]
pub fn read_module(alloc: Global, around: &mut Around, tree: &Tree) -> Result<Module, DocFail>
    requires { around.old.modules < 2 ^ 63 }
    ensures right { IfOk result (λ m. module_fault around.old (view tree.now) ≡ None) }
    ensures said { IfOk result (λ m. module_of around.old (view tree.now) ≡ Some m) }
    ensures next { OnOk result (around.new ≡ next around.old (view tree.now)) }
    ensures bad { IfErr result (Fails (module_fault around.old (view tree.now))) }
{
    if is_there(tree, Field::Derive) {
        derived_module(alloc, around, tree)
    } else {
        plain_module(alloc, around, tree)
    }
}
