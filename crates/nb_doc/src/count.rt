//! Counting: the sheet as it is if no line is refused, without its cells.
ghost use Rattle.std.specs.Prelude.{◌≡◌, ◌<◌, ◌+◌, ◌^◌, ◌++◌, ◌∷◌, [], true, map, IfOk, OnOk};
ghost use Rattle.std.specs.List.{flat_map};
ghost use Rattle.nb_sheet.specs.Derive.{copied_of, copied_var, copy_of as copy_of_, derived, first_vars, import_of, module_copy, new_row, rows_of, turned as turned_of};
ghost use Rattle.nb_sheet.specs.Sheet.{empty_sheet, with_copies};
ghost use Rattle.nb_sheet.specs.declared.copies.NewModule.{NewModule};
ghost use Rattle.nb_sheet.specs.declared.row.VarRow.{VarRow as Row};
ghost use Rattle.nb_doc.specs.Numbers.{no_cell as no_cell_, item_row as item_row_of, items_of as items_of_, is_full as is_full_of, number_for, variable_for, counted, place_at, place_for, places_of as places_of_, made, sheet_in};

use crate::item::Item;
use crate::module::Module;
use crate::place::{Place, number_of};
use crate::walk::copied_modules;
use nb_sheet::{BodyOf, Specifier, Specifiers, VarRow, is_copied};
use nb_syntax::{Body, Cell, Expr};
use nb_value::Text;
use std::alloc::{AllocError, Global};

/// The modules and the variables so far: for each module whether a derive made it, and the variables' rows.
#[derive(Drop)]
pub struct Counted {
    marks: Vec<bool>,
    rows: Vec<VarRow>,
}

/// A derive of a module, with the modules that it copies.
#[derive(Drop)]
struct Plan<'a> {
    /// The number of the first copy.
    next: usize,
    rows: &'a [VarRow],
    within: u32,
    specifiers: &'a Specifiers,
    source: u32,
    copied: &'a [u32],
}

/// A number of a module as lines hold it. There is no memory for so many modules that it fails.
fn as_number(n: usize) -> Result<u32, AllocError>
    ensures { IfOk result (λ k. k ≡ n) }
{
    match u32::try_from(n) {
        Ok(number) => Ok(number),
        Err(_) => Err(AllocError),
    }
}

/// The number of a module's copy, or its own where it isn't copied.
fn copy_of(next: usize, copied: &[u32], k: u32) -> Result<u32, AllocError>
    requires { next < 2 ^ 63 }
    ensures { IfOk result (λ n. n ≡ copy_of_ next copied.now k) }
{
    for i in 0..copied.len() {
        if copied[i] == k {
            return as_number(next + i);
        }
    }
    Ok(k)
}

/// A copy of a body, in which an import from a copied module is one from its copy.
fn turned(alloc: Global, plan: &Plan<'_>, body: &BodyOf) -> Result<BodyOf, AllocError>
    requires { plan.now.next < 2 ^ 63 }
    ensures { IfOk result (λ new. new ≡ turned_of plan.now.next plan.now.copied.now body.now) }
{
    match body {
        BodyOf::Cell(cell) => Ok(BodyOf::Cell(cell.copy(alloc)?)),
        BodyOf::Import { name, from } => Ok(BodyOf::Import {
            name: name.copy(alloc)?,
            from: copy_of(plan.next, plan.copied, *from)?,
        }),
    }
}

/// The row of a specifier's variable of the source, under its alias.
fn import_row(alloc: Global, s: &Specifier, source: u32, number: u32) -> Result<VarRow, AllocError>
    ensures { IfOk result (λ row. row ≡ new_row number 0 (import_of source s.now)) }
{
    let name = s.name.copy(alloc)?;
    Ok(VarRow {
        module: number,
        observed: false,
        name: Some(s.alias.copy(alloc)?),
        body: Some(BodyOf::Import { name, from: source }),
        place: 0,
    })
}

/// Adds the rows with which the copy of module `k` begins.
fn add_first(
    alloc: Global,
    rows: &mut Vec<VarRow>,
    plan: &Plan<'_>,
    k: u32,
    number: u32,
) -> Result<(), AllocError>
    ensures { OnOk result (rows.new.items ≡ rows.old.items ++ map (new_row number 0) (first_vars plan.now.within plan.now.specifiers.now plan.now.source k)) }
{
    if k == plan.within {
        add_imports(alloc, rows, plan.specifiers.as_slice(), plan.source, number)?;
    }
    Ok(())
}

fn add_imports(
    alloc: Global,
    rows: &mut Vec<VarRow>,
    specifiers: &[Specifier],
    source: u32,
    number: u32,
) -> Result<(), AllocError>
    ensures { OnOk result (rows.new.items ≡ rows.old.items ++ map (new_row number 0) (map (import_of source) specifiers.now)) }
{
    for s in specifiers {
        rows.push(import_row(alloc, s, source, number)?)?;
    }
    Ok(())
}

/// Adds a row's copy, if it has a name and a body.
fn add_copy(
    alloc: Global,
    rows: &mut Vec<VarRow>,
    plan: &Plan<'_>,
    number: u32,
    row: &VarRow,
) -> Result<(), AllocError>
    requires { plan.now.next < 2 ^ 63 }
    ensures { OnOk result (rows.new.items ≡ rows.old.items ++ map (new_row number 0) (copied_var plan.now.next plan.now.copied.now row.now.name row.now.body)) }
{
    match (&row.name, &row.body) {
        (Some(name), Some(body)) => {
            let name = name.copy(alloc)?;
            let body = turned(alloc, plan, body)?;
            rows.push(VarRow {
                module: number,
                observed: false,
                name: Some(name),
                body: Some(body),
                place: 0,
            })?;
            Ok(())
        }
        _ => Ok(()),
    }
}

/// Adds the copies of the rows of module `k`.
#[tactic(auto, using(crate::proofs::CountingLemmas::rows_of_two))]
fn add_rest(
    alloc: Global,
    rows: &mut Vec<VarRow>,
    plan: &Plan<'_>,
    k: u32,
    number: u32,
) -> Result<(), AllocError>
    requires { plan.now.next < 2 ^ 63 }
    ensures { OnOk result (rows.new.items ≡ rows.old.items ++ map (new_row number 0) (flat_map (λ (row : Row). copied_var plan.now.next plan.now.copied.now row.name row.body) (copied_of plan.now.within plan.now.specifiers.now plan.now.rows.now k))) }
{
    for row in plan.rows {
        if is_copied(plan.within, plan.specifiers, k, row) {
            add_copy(alloc, rows, plan, number, row)?;
        }
    }
    Ok(())
}

/// Adds the rows of the copy of module `k`, which has this number.
#[tactic(auto, using(crate::proofs::CountingLemmas::rows_of_two))]
fn add_module_copy(
    alloc: Global,
    rows: &mut Vec<VarRow>,
    plan: &Plan<'_>,
    k: u32,
    number: u32,
) -> Result<(), AllocError>
    requires { plan.now.next < 2 ^ 63 }
    ensures { OnOk result (rows.new.items ≡ rows.old.items ++ map (new_row number 0) (NewModule.variables (module_copy plan.now.next plan.now.rows.now plan.now.within plan.now.specifiers.now plan.now.source plan.now.copied.now k))) }
{
    add_first(alloc, rows, plan, k, number)?;
    add_rest(alloc, rows, plan, k, number)
}

/// The rows of all copies.
fn copied_rows(alloc: Global, plan: &Plan<'_>) -> Result<Vec<VarRow>, AllocError>
    requires { plan.now.next < 2 ^ 63 }
    ensures { IfOk result (λ rows. rows.items ≡ rows_of plan.now.next 0 (map (module_copy plan.now.next plan.now.rows.now plan.now.within plan.now.specifiers.now plan.now.source plan.now.copied.now) plan.now.copied.now)) }
{
    let mut rows = Vec::new(alloc);
    for i in 0..plan.copied.len() {
        let number = as_number(plan.next + i)?;
        add_module_copy(alloc, &mut rows, plan, plan.copied[i], number)?;
    }
    Ok(rows)
}

/// Adds a mark for each copy.
fn add_marks(marks: &mut Vec<bool>, copied: &[u32]) -> Result<(), AllocError>
    ensures { OnOk result (marks.new.items ≡ marks.old.items ++ map (λ k. true) copied.now) }
{
    for _k in copied {
        marks.push(true)?;
    }
    Ok(())
}

/// Adds what a derive makes.
#[tactic(auto, using(crate::proofs::CountingLemmas::marks_of))]
fn derive(
    alloc: Global,
    sheet: &mut Counted,
    within: u32,
    specifiers: &Specifiers,
    source: u32,
) -> Result<(), AllocError>
    ensures { OnOk result (sheet_in sheet.new ≡ with_copies (sheet_in sheet.old) (derived sheet.old.marks.items sheet.old.rows.items within specifiers.now source) 0) }
{
    let copied = copied_modules(
        alloc,
        sheet.marks.as_slice(),
        sheet.rows.as_slice(),
        within,
        specifiers,
    )?;
    let plan = Plan {
        next: sheet.marks.len(),
        rows: sheet.rows.as_slice(),
        within,
        specifiers,
        source,
        copied: copied.as_slice(),
    };
    let mut rows = copied_rows(alloc, &plan)?;
    sheet.rows.append(&mut rows)?;
    add_marks(&mut sheet.marks, copied.as_slice())
}

/// The row of the one variable that an item makes.
fn item_row(alloc: Global, places: &[Place], m: u32, item: &Item) -> Result<VarRow, AllocError>
    ensures { IfOk result (λ row. row ≡ item_row_of places.now m item.now) }
{
    let (name, body) = match item {
        Item::Cell { cell, .. } => (copy_name(alloc, &cell.name)?, BodyOf::Cell(no_cell())),
        Item::Import {
            name,
            alias,
            from,
            ..
        } => {
            let body = BodyOf::Import {
                name: name.copy(alloc)?,
                from: number_of(places, *from),
            };
            (Some(alias.copy(alloc)?), body)
        }
    };
    Ok(VarRow {
        module: m,
        observed: false,
        name,
        body: Some(body),
        place: 0,
    })
}

/// What stands for each cell.
fn no_cell() -> Cell
    ensures { result ≡ no_cell_ }
{
    Cell {
        name: None,
        body: Body::Expr(Expr::Null),
    }
}

fn copy_name(alloc: Global, name: &Option<Text>) -> Result<Option<Text>, AllocError>
    ensures { IfOk result (λ n. n ≡ name.now) }
{
    match name {
        Some(name) => Ok(Some(name.copy(alloc)?)),
        None => Ok(None),
    }
}

/// Adds the rows of the items of module `m`.
fn add_items(
    alloc: Global,
    rows: &mut Vec<VarRow>,
    places: &[Place],
    m: u32,
    items: &[Item],
) -> Result<(), AllocError>
    ensures { OnOk result (rows.new.items ≡ rows.old.items ++ map (item_row_of places.now m) items.now) }
{
    for item in items {
        rows.push(item_row(alloc, places, m, item)?)?;
    }
    Ok(())
}

/// Whether no number is told any more.
fn is_full(sheet: &Counted) -> bool
    ensures { result ≡ is_full_of (sheet_in sheet.now) }
{
    sheet.marks.len() > 64 && sheet.rows.len() > 1024
}

/// Makes a module, with the variables and the other copies of a derive.
fn make(
    alloc: Global,
    sheet: &mut Counted,
    places: &[Place],
    module: &Module,
) -> Result<(), AllocError>
    ensures { OnOk result (sheet_in sheet.new ≡ made places.now module.now (sheet_in sheet.old)) }
{
    match module {
        Module::Plain(_) => {
            if !places.is_empty() {
                sheet.marks.push(false)?;
            }
            Ok(())
        }
        Module::Derived {
            derive: within,
            with,
            source,
        } => derive(
            alloc,
            sheet,
            number_of(places, *within),
            with,
            number_of(places, *source),
        ),
    }
}

fn no_items() -> &'static [Item]
    ensures { result.now ≡ [] }
{
    &[]
}

/// The items of a module: a derived one has none.
fn items_of(module: &Module) -> &[Item]
    ensures { result.now ≡ items_of_ module.now }
{
    match module {
        Module::Plain(items) => items.as_slice(),
        Module::Derived { .. } => no_items(),
    }
}

/// The number of the next module.
fn next_number(sheet: &Counted, places: &[Place]) -> Result<u32, AllocError>
    ensures { IfOk result (λ n. n ≡ number_for places.now (sheet_in sheet.now)) }
{
    if places.is_empty() {
        Ok(0)
    } else {
        as_number(sheet.marks.len())
    }
}

/// The number of the next variable, as lines have it.
fn next_variable(sheet: &Counted) -> u32
    ensures { result ≡ variable_for (sheet_in sheet.now) }
{
    sheet.rows.len().min(1024) as u32 + 1
}

/// Counts a module, and adds its place.
#[tactic(auto, unfolding(crate::specs::Numbers::counted, crate::specs::Numbers::place_for))]
fn count_module(
    alloc: Global,
    sheet: &mut Counted,
    places: &mut Vec<Place>,
    module: &Module,
) -> Result<(), AllocError>
    ensures sheet { OnOk result (sheet_in sheet.new ≡ counted places.old.items module.now (sheet_in sheet.old)) }
    ensures place { OnOk result (places.new.items ≡ places.old.items ++ place_for places.old.items module.now (sheet_in sheet.old) ∷ []) }
{
    let number = next_number(sheet, places.as_slice())?;
    if is_full(sheet) {
        return add_place(places, number, next_variable(sheet));
    }
    make(alloc, sheet, places.as_slice(), module)?;
    add_place(places, number, next_variable(sheet))?;
    add_items(
        alloc,
        &mut sheet.rows,
        places.as_slice(),
        number,
        items_of(module),
    )
}

fn add_place(places: &mut Vec<Place>, number: u32, variable: u32) -> Result<(), AllocError>
    ensures { OnOk result (places.new.items ≡ places.old.items ++ place_at number variable ∷ []) }
{
    places.push(Place { number, variable })?;
    Ok(())
}

/// The places of modules, one after another.
#[tactic(auto, unfolding(crate::specs::Numbers::places_of))]
pub fn places_of(alloc: Global, modules: &[Module]) -> Result<Vec<Place>, AllocError>
    ensures { IfOk result (λ places. places.items ≡ places_of_ modules.now) }
{
    let mut sheet = first_sheet(alloc)?;
    let mut places = Vec::new(alloc);
    for module in modules {
        count_module(alloc, &mut sheet, &mut places, module)?;
    }
    Ok(places)
}

/// Module 0, and no variable.
fn first_sheet(alloc: Global) -> Result<Counted, AllocError>
    ensures { IfOk result (λ sheet. sheet_in sheet ≡ empty_sheet []) }
{
    let mut marks = Vec::new(alloc);
    marks.push(false)?;
    Ok(Counted {
        marks,
        rows: Vec::new(alloc),
    })
}
