//! The items of a module: cells, and imports from modules.
ghost use Rattle.std.specs.Prelude.{◌≡◌, Some, None, true, false, IfOk, IfErr};
ghost use Rattle.serde_json.specs.View.{view, items_view};
ghost use Rattle.nb_doc.specs.declared.form.Field.TheVariants as field;
ghost use Rattle.std.specs.Fmt.{decimal};
ghost use Rattle.nb_doc.specs.Faults.{Fails, in_part};
ghost use Rattle.nb_doc.specs.Forms.{needs, field_fault, object_fault};
ghost use Rattle.nb_doc.specs.Items.{each_fault, each_of, item_fault, item_of, cell_rows, import_rows, cell_item, import_item, items_fault, items_in, items_at};

use crate::around::Around;
use crate::arrays::keep;
use crate::contents::{alias, cell, name, observed, reference};
use crate::fail::{missing, within_field, within_place, wrong};
use crate::form::Field;
use crate::object::{is_there, test_object};
use crate::reason::DocFail;
use nb_syntax::Cell;
use nb_value::Text;
use serde_json::Value as Tree;
use std::alloc::Global;
use std::marker::Model;

/// An item of a module.
#[derive(Drop)]
pub enum Item {
    /// A variable that the cell defines.
    Cell {
        cell: Cell,
        observed: bool,
    },
    /// A variable that stands, as its alias, for the variable of this name in the module at this position.
    Import {
        name: Text,
        alias: Text,
        from: usize,
        observed: bool,
    },
}

/// The items of a module, in their order, which contracts see as a list.
#[derive(Drop)]
pub struct ItemList {
    items: Vec<Item>,
}

impl Model for ItemList {
    ghost use Rattle.std.specs.Prelude.{List};
    ghost use Rattle.std.specs.Coded.{coded_list};
    ghost use Rattle.nb_doc.specs.declared.item.Item.{Item as One};
    ghost use Rattle.nb_doc.specs.contracts.item.Item as one;

    ghost Value = { List One };

    ghost coded = { coded_list one.the_row.coded };

    ghost view = { λ v. v.items.items };
}

impl ItemList {
    /// The items in this order.
    pub fn from_vec(items: Vec<Item>) -> ItemList
        ensures { result ≡ items.items }
    {
        ItemList { items }
    }

    /// The items in their order.
    pub fn as_slice(&self) -> &[Item]
        ensures { result.now ≡ self.now }
    {
        &self.items
    }

    /// The items in their order. It takes no memory.
    pub fn into_vec(self) -> Vec<Item>
        ensures { result.items ≡ self }
    {
        let ItemList { items } = self;
        items
    }
}

/// A cell.
#[tactic(auto, unfolding(crate::specs::Forms::object_fault))]
fn cell_item(alloc: Global, tree: &Tree) -> Result<Item, DocFail>
    ensures right { IfOk result (λ i. object_fault cell_rows (view tree.now) ≡ None) }
    ensures said { IfOk result (λ i. cell_item (view tree.now) ≡ Some i) }
    ensures bad { IfErr result (Fails (object_fault cell_rows (view tree.now))) }
{
    test_object(alloc, tree, &[Field::Cell, Field::Observed])?;
    let cell = cell(alloc, tree)?;
    let observed = observed(alloc, tree, true)?;
    Ok(Item::Cell { cell, observed })
}

/// An import.
#[tactic(auto, unfolding(crate::specs::Forms::object_fault))]
fn import_item(alloc: Global, around: &Around, tree: &Tree) -> Result<Item, DocFail>
    ensures right { IfOk result (λ i. object_fault (import_rows around.now) (view tree.now) ≡ None) }
    ensures said { IfOk result (λ i. import_item around.now (view tree.now) ≡ Some i) }
    ensures bad { IfErr result (Fails (object_fault (import_rows around.now) (view tree.now))) }
{
    test_object(
        alloc,
        tree,
        &[Field::Import, Field::Alias, Field::From, Field::Observed],
    )?;
    let name = name(alloc, tree, Field::Import)?;
    let alias = alias(alloc, tree, name)?;
    let from = reference(alloc, around, tree, Field::From)?;
    let observed = observed(alloc, tree, false)?;
    Ok(Item::Import {
        name: Text::from_str(alloc, name)?,
        alias: Text::from_str(alloc, alias)?,
        from,
        observed,
    })
}

/// One item of a module, with the modules that it may import from.
#[tactic(auto, unfolding(crate::specs::Items::item_fault, crate::specs::Items::item_of))]
fn read_item(alloc: Global, around: &Around, tree: &Tree) -> Result<Item, DocFail>
    ensures right { IfOk result (λ i. item_fault around.now (view tree.now) ≡ None) }
    ensures said { IfOk result (λ i. item_of around.now (view tree.now) ≡ Some i) }
    ensures bad { IfErr result (Fails (item_fault around.now (view tree.now))) }
{
    if is_there(tree, Field::Import) {
        import_item(alloc, around, tree)
    } else {
        cell_item(alloc, tree)
    }
}

/// The items in a module's field.
#[tactic(auto, unfolding(crate::specs::Forms::field_fault))]
pub fn items_field(alloc: Global, around: &Around, tree: &Tree) -> Result<ItemList, DocFail>
    ensures right { IfOk result (λ i. field_fault (view tree.now) (needs field.Items (items_fault around.now)) ≡ None) }
    ensures said { IfOk result (λ i. items_at around.now (view tree.now) ≡ Some i) }
    ensures bad { IfErr result (Fails (field_fault (view tree.now) (needs field.Items (items_fault around.now)))) }
{
    match tree.get(Field::Items.name()) {
        Some(found) => match read_items(alloc, around, found) {
            Ok(items) => Ok(items),
            Err(fail) => Err(within_field(alloc, Field::Items, fail)),
        },
        None => Err(missing(alloc, Field::Items)),
    }
}

/// All items of a module.
fn read_items(alloc: Global, around: &Around, tree: &Tree) -> Result<ItemList, DocFail>
    ensures right { IfOk result (λ i. items_fault around.now (view tree.now) ≡ None) }
    ensures said { IfOk result (λ i. items_in around.now (view tree.now) ≡ Some i) }
    ensures bad { IfErr result (Fails (items_fault around.now (view tree.now))) }
{
    match tree.as_array() {
        Some(items) => Ok(ItemList::from_vec(each_item(alloc, around, items)?)),
        None => Err(wrong(alloc)),
    }
}

/// The item at a position.
fn item_at(alloc: Global, around: &Around, place: usize, tree: &Tree) -> Result<Item, DocFail>
    ensures right { IfOk result (λ i. item_fault around.now (view tree.now) ≡ None) }
    ensures said { IfOk result (λ i. item_of around.now (view tree.now) ≡ Some i) }
    ensures bad { IfErr result (Fails (in_part (decimal place) (item_fault around.now (view tree.now)))) }
{
    match read_item(alloc, around, tree) {
        Ok(item) => Ok(item),
        Err(fail) => Err(within_place(alloc, place, fail)),
    }
}

fn each_item(alloc: Global, around: &Around, items: &Vec<Tree>) -> Result<Vec<Item>, DocFail>
    ensures right { IfOk result (λ i. each_fault (item_fault around.now) 0 (items_view items.now.items) ≡ None) }
    ensures said { IfOk result (λ i. each_of (item_of around.now) (items_view items.now.items) ≡ Some i.items) }
    ensures bad { IfErr result (Fails (each_fault (item_fault around.now) 0 (items_view items.now.items))) }
{
    let mut found = Vec::new(alloc);
    for (k, item) in items.iter().enumerate() {
        keep(&mut found, item_at(alloc, around, k, item)?)?;
    }
    Ok(found)
}
