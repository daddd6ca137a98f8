//! The modules that a derive copies.

ghost use Rattle.std.specs.Prelude.{◌≡◌, ◌<◌, ◌≤◌, ◌++◌, ◌∷◌, [], length, slice_get, Some};
ghost use Rattle.nb_sheet.specs.Derive.{AreModules, add_module as module_added, add_modules, copied_modules as copied_modules_of, copied_of, has_number, is_alias as is_alias_of, is_copied as is_copied_of};

use crate::edit::{Specifier, Specifiers};
use crate::row::{BodyOf, VarRow};
use crate::sheet::Sheet;
use nb_value::Text;
use std::marker::Model;

/// Numbers of modules, at most 64, which contracts see as a list. It takes no memory.
#[derive(Drop)]
pub struct ModuleList {
    numbers: [u32; 64],
    count: usize,
}

impl Model for ModuleList {
    ghost use Rattle.std.specs.Prelude.{List, ℕ, ◌≤◌, take};

    ghost Value = { List ℕ };

    ghost view = { λ m. take m.count m.numbers };

    ghost invariant = { λ m. m.count ≤ 64 };
}

impl ModuleList {
    fn one(k: u32) -> ModuleList
        ensures { result ≡ k ∷ [] }
    {
        ModuleList {
            numbers: [k; 64],
            count: 1,
        }
    }

    fn push(&mut self, k: u32)
        requires { length self.old < 64 }
        ensures { self.new ≡ self.old ++ k ∷ [] }
    {
        self.numbers[self.count] = k;
        self.count += 1;
    }

    /// The numbers in their order.
    pub fn as_slice(&self) -> &[u32]
        ensures value { result.now ≡ self.now }
        ensures few { length result.now ≤ 64 }
    {
        &self.numbers[..self.count]
    }
}

/// Whether a number is in the list.
fn has(list: &[u32], k: u32) -> bool
    ensures { result ≡ has_number k list.now }
{
    for n in list {
        if k == *n {
            return true;
        }
    }
    false
}

/// Whether a name is a specifier's alias.
fn is_alias_name(specifiers: &[Specifier], name: &str) -> bool
    ensures { result ≡ is_alias_of specifiers.now (Some name.now) }
{
    for s in specifiers {
        if name == s.alias.as_str() {
            return true;
        }
    }
    false
}

/// Whether a variable's name is a specifier's alias.
fn is_alias(specifiers: &[Specifier], name: &Option<Text>) -> bool
    ensures { result ≡ is_alias_of specifiers.now name.now }
{
    match name {
        None => false,
        Some(name) => is_alias_name(specifiers, name.as_str()),
    }
}

/// Whether a derive of a module copies a variable of module `k`.
pub fn is_copied(within: u32, specifiers: &Specifiers, k: u32, row: &VarRow) -> bool
    ensures { result ≡ is_copied_of within specifiers.now k row.now }
{
    row.module == k
        && row.name.is_some()
        && !(k == within && is_alias(specifiers.as_slice(), &row.name))
}

/// Adds the module that an import is from, if a derive made it and it isn't in the list.
fn add_module(sheet: &Sheet, list: &mut ModuleList, body: &Option<BodyOf>)
    requires { AreModules (length sheet.now.sheet.modules) list.old }
    ensures value { list.new ≡ module_added sheet.now.sheet.modules list.old body.now }
    ensures kept { AreModules (length sheet.now.sheet.modules) list.new }
{
    if let Some(BodyOf::Import { from, .. }) = body {
        if *from < sheet.modules() && sheet.by_derive(*from) && !has(list.as_slice(), *from) {
            list.push(*from);
        }
    }
}

/// Adds what the variables of module `k` import.
fn go_through(sheet: &Sheet, within: u32, specifiers: &Specifiers, k: u32, list: &mut ModuleList)
    requires { AreModules (length sheet.now.sheet.modules) list.old }
    ensures value { list.new ≡ add_modules sheet.now.sheet.modules list.old (copied_of within specifiers.now sheet.now.sheet.rows k) }
    ensures kept { AreModules (length sheet.now.sheet.modules) list.new }
{
    for row in sheet.rows() {
        if is_copied(within, specifiers, k, row) {
            add_module(sheet, list, &row.body);
        }
    }
}

/// The number at a place, if there is one.
fn number_at(list: &[u32], place: u32) -> Option<u32>
    ensures { result ≡ slice_get list.now place }
{
    list.get(place as usize).copied()
}

/// The modules that a derive copies, in their order. It takes no memory.
pub fn copied_modules(sheet: &Sheet, within: u32, specifiers: &Specifiers) -> ModuleList
    requires { within < length sheet.now.sheet.modules }
    ensures value { result ≡ copied_modules_of sheet.now.sheet.modules sheet.now.sheet.rows within specifiers.now }
    ensures kept { AreModules (length sheet.now.sheet.modules) result }
{
    let mut list = ModuleList::one(within);
    for place in 0..sheet.modules() {
        if let Some(k) = number_at(list.as_slice(), place) {
            go_through(sheet, within, specifiers, k, &mut list);
        }
    }
    list
}
