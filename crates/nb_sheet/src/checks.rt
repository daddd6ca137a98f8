//! The reasons against an edit.

ghost use Rattle.std.specs.Prelude.{◌≡◌, ◌-◌, ◌^◌, ◌<◌, ◌≤◌, None, List, length, min};
ghost use Rattle.nb_sheet.specs.Derive.{variables_of};
ghost use Rattle.nb_sheet.specs.Lists.{or_else};
ghost use Rattle.nb_sheet.specs.declared.copies.NewModule.{NewModule};
ghost use Rattle.nb_sheet.specs.Sheet.{no_module as no_module_of, no_variable as no_variable_of, too_many as too_many_of, too_many_modules as too_many_modules_of, too_many_variables as too_many_variables_of, no_one_named as no_one_named_of, the_one_named as the_one_named_of, refusal as refusal_of};

use crate::copied::copied_modules;
use crate::counting::count_all;
use crate::edit::{Edit, Specifiers};
use crate::names::the_one;
use crate::refused::Refused;
use crate::sheet::Sheet;
use nb_value::Text;

/// That a module doesn't exist.
fn no_module(sheet: &Sheet, within: u32) -> Option<Refused>
    ensures { result ≡ no_module_of sheet.now.sheet within }
{
    if sheet.modules() <= within {
        return Some(Refused::NoModule);
    }
    None
}

/// That a variable doesn't exist.
fn no_variable(sheet: &Sheet, variable: u32) -> Option<Refused>
    ensures { result ≡ no_variable_of sheet.now.sheet variable }
{
    match sheet.variable(variable) {
        None => Some(Refused::NoVariable),
        Some(_row) => None,
    }
}

/// That so many variables more don't fit.
fn too_many_variables(sheet: &Sheet, made: u32) -> Option<Refused>
    requires { made < 2 ^ 31 }
    ensures { result ≡ too_many_variables_of sheet.now.sheet made }
{
    if sheet.rows().len() as u32 + made > 1024 {
        return Some(Refused::TooManyVariables);
    }
    None
}

/// That none or more than one of a module's variables have the name.
fn no_one_named(sheet: &Sheet, within: u32, name: &Option<Text>) -> Option<Refused>
    ensures { result ≡ no_one_named_of sheet.now.sheet within name.now }
{
    match name {
        None => Some(Refused::NotNamed),
        Some(name) => the_one(sheet.rows(), within, name.as_str()).err(),
    }
}

/// The one variable of a module that has the name.
pub fn the_one_named(sheet: &Sheet, within: u32, name: &Option<Text>) -> u32
    requires { no_one_named_of sheet.now.sheet within name.now ≡ None }
    ensures value { result ≡ the_one_named_of sheet.now.sheet within name.now }
    ensures there { no_variable_of sheet.now.sheet result ≡ None }
{
    match name {
        None => 0,
        Some(name) => the_one(sheet.rows(), within, name.as_str()).unwrap_or(0),
    }
}

/// The first of two reasons.
fn first(first: Option<Refused>, second: Option<Refused>) -> Option<Refused>
    ensures { result ≡ or_else first second }
{
    match first {
        Some(reason) => Some(reason),
        None => second,
    }
}

/// That so many modules more don't fit.
fn too_many_modules(sheet: &Sheet, made: u32) -> Option<Refused>
    requires { made < 2 ^ 31 }
    ensures { result ≡ too_many_modules_of sheet.now.sheet made }
{
    if sheet.modules() + made > 64 {
        return Some(Refused::TooManyModules);
    }
    None
}

/// That so many modules and variables more don't fit.
fn too_many(sheet: &Sheet, modules: usize, variables: usize) -> Option<Refused>
    requires { modules < 2 ^ 63 }
    ensures { (copies : List NewModule) → modules ≡ length copies → variables ≡ min (variables_of copies) (2 ^ 64 - 1) → result ≡ too_many_of sheet.now.sheet copies }
{
    if sheet.modules() as usize + modules > 64 {
        return Some(Refused::TooManyModules);
    }
    if variables > 1024 || sheet.rows().len() + variables > 1024 {
        return Some(Refused::TooManyVariables);
    }
    None
}

/// The first reason against a derive.
fn against_derive(
    sheet: &Sheet,
    within: u32,
    specifiers: &Specifiers,
    source: u32,
) -> Option<Refused>
    ensures { result ≡ refusal_of sheet.now.sheet (Edit.Derive within specifiers.now source) }
{
    if within >= sheet.modules() || source >= sheet.modules() {
        return Some(Refused::NoModule);
    }
    let copied = copied_modules(sheet, within, specifiers);
    let list = copied.as_slice();
    let variables = count_all(sheet, within, specifiers, source, list);
    too_many(sheet, list.len(), variables)
}

/// The first reason against an edit.
pub fn refusal(sheet: &Sheet, edit: &Edit) -> Option<Refused>
    ensures { result ≡ refusal_of sheet.now.sheet edit.now }
{
    match edit {
        Edit::AddModule => too_many_modules(sheet, 1),
        Edit::AddVariable { module, .. } | Edit::AddCell { module, .. } => {
            first(no_module(sheet, *module), too_many_variables(sheet, 1))
        }
        Edit::Define { variable, .. } | Edit::Delete { variable } => no_variable(sheet, *variable),
        Edit::Import { variable, from, .. } => {
            first(no_module(sheet, *from), no_variable(sheet, *variable))
        }
        Edit::Redefine { module, cell } => {
            first(
                no_module(sheet, *module),
                no_one_named(sheet, *module, &cell.name),
            )
        }
        Edit::Derive {
            module,
            with,
            source,
        } => against_derive(sheet, *module, with, *source),
    }
}
