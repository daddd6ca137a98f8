//! The lines that a document's modules stand for.
ghost use Rattle.std.specs.Prelude.{◌≡◌, ◌≤◌, ◌++◌, IfOk, OnOk};
ghost use Rattle.nb_doc.specs.Says.{item_lines, items_lines, opening, module_lines, lines_from, lines_of as lines_of_};

use crate::count::places_of;
use crate::item::{Item, ItemList};
use crate::module::Module;
use crate::place::{Place, first_variable, module_number, next_variable};
use nb_log::Event;
use nb_sheet::Edit;
use nb_value::Items;
use std::alloc::{AllocError, Global};

/// Adds the lines of an item of module `m` whose variable has the number `v`.
fn add_item(
    events: &mut Items<Event>,
    places: &[Place],
    m: u32,
    v: u32,
    item: Item,
) -> Result<(), AllocError>
    ensures { OnOk result (events.new ≡ events.old ++ item_lines places.now m v item) }
{
    match item {
        Item::Cell { cell, observed } => events.push(Event::Edit(Edit::AddCell {
            module: m,
            cell,
            observed,
        })),
        Item::Import {
            name,
            alias,
            from,
            observed,
        } => {
            events.push(Event::Edit(Edit::AddVariable {
                module: m,
                observed,
            }))?;
            events.push(Event::Edit(Edit::Import {
                variable: v,
                name,
                alias,
                from: module_number(places, from),
            }))
        }
    }
}

/// Adds the lines of items of module `m`, whose variables have the numbers from `v` on.
fn add_items(
    events: &mut Items<Event>,
    places: &[Place],
    m: u32,
    v: u32,
    items: ItemList,
) -> Result<(), AllocError>
    requires { v ≤ 1025 }
    ensures { OnOk result (events.new ≡ events.old ++ items_lines places.now m v items) }
{
    let mut next = v;
    for item in items.into_vec() {
        add_item(events, places, m, next, item)?;
        next = next_variable(next);
    }
    Ok(())
}

/// Adds the lines of the module at a position.
fn add_module(
    events: &mut Items<Event>,
    places: &[Place],
    position: usize,
    one: Module,
) -> Result<(), AllocError>
    ensures { OnOk result (events.new ≡ events.old ++ module_lines places.now position one) }
{
    match one {
        Module::Plain(items) => {
            if position != 0 {
                events.push(Event::Edit(Edit::AddModule))?;
            }
            let m = module_number(places, position);
            let v = first_variable(places, position);
            add_items(events, places, m, v, items)
        }
        Module::Derived {
            derive,
            with,
            source,
        } => events.push(Event::Edit(Edit::Derive {
            module: module_number(places, derive),
            with,
            source: module_number(places, source),
        })),
    }
}

/// The lines that the modules stand for.
#[tactic(auto, unfolding(crate::specs::Says::lines_of))]
pub fn lines_of(alloc: Global, modules: Vec<Module>) -> Result<Items<Event>, AllocError>
    ensures { IfOk result (λ events. events ≡ lines_of_ modules.items) }
{
    let places = places_of(alloc, modules.as_slice())?;
    let mut events = Items::new(alloc);
    let mut position = 0;
    for module in modules {
        add_module(&mut events, places.as_slice(), position, module)?;
        position += 1;
    }
    Ok(events)
}
