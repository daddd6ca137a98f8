//! The locals of an evaluation, with numbers for their names.

ghost use Rattle.std.specs.Prelude.{◌≡◌, ◌∷◌, ◌++◌, [], ◌<◌, ◌-◌, List, ℕ, Option, length, map, take, slice_get, slice_set, string_bytes, true, Some, IfOk, OnOk, OnErr};
ghost use Rattle.std.specs.Option.{option_copied};
ghost use Rattle.std.specs.BTreeMap.{get_by_text};
ghost use Rattle.nb_value.specs.Fields.{names};
ghost use Rattle.nb_eval.specs.Locals.{name_value, place};
ghost use Rattle.nb_eval.specs.LocalsIndex.{IsIndexed, Sets, last_place, under};

use nb_value::{Field, Text, Value};
use std::alloc::{AllocError, Global};
use std::collections::BTreeMap;
use std::marker::Model;

// A local, with the number of its name and the place of the local that it shadows.
#[derive(Debug, Drop)]
struct Local {
    field: Field<Value>,
    number: usize,
    outer: Option<usize>,
}

/// The locals that hold, which contracts see as the list of them in the order in which they were made.
#[derive(Debug, Drop)]
pub struct Locals {
    list: Vec<Local>,
    // A number for each name that a local has had, so that no name is looked up twice for one local.
    numbers: BTreeMap<String, usize>,
    // Under each number the place of the name's innermost local.
    tops: Vec<Option<usize>>,
}

impl Model for Locals {
    ghost use Rattle.std.specs.Prelude.{List, map};
    ghost use Rattle.std.specs.BTreeMap.{get_by_text};
    ghost use Rattle.nb_value.specs.Fields.{names, fields_code};
    ghost use Rattle.nb_value.specs.contracts.value.Value as row;
    ghost use Rattle.nb_value.specs.declared.pairs.Field.{Field};
    ghost use Rattle.nb_value.specs.declared.value.Value.{Value as CellValue};
    ghost use Rattle.nb_eval.specs.LocalsIndex.{IsIndexed};

    ghost Value = { List (Field CellValue) };

    ghost coded = { fields_code row.the_row.coded };

    ghost view = { λ it. map (λ l. l.field) it.list.items };

    ghost invariant = { λ it. IsIndexed (names (map (λ l. l.field) it.list.items)) (map (λ l. l.number) it.list.items) (map (λ l. l.outer) it.list.items) (get_by_text it.numbers) it.tops.items };
}

impl Locals {
    /// No locals. It takes no memory yet.
    pub fn new(alloc: Global) -> Locals
        ensures { result ≡ [] }
    {
        Locals {
            list: Vec::new(alloc),
            numbers: BTreeMap::new(alloc),
            tops: Vec::new(alloc),
        }
    }

    /// How many there are.
    pub fn len(&self) -> usize
        ensures { result ≡ length self.now }
    {
        self.list.len()
    }

    /// The place of the innermost local of this name. It takes no memory, and as many comparisons as the logarithm of
    /// the number of names that locals have had.
    pub fn place(&self, name: &str) -> Option<usize>
        ensures { result ≡ place name.now self.now }
    {
        under(self.tops.as_slice(), self.numbers.get(name).copied())
    }

    /// The place of the innermost local of this name, as `place` gives it. Where that is `near`, it takes one comparison and no
    /// look-up.
    pub fn place_near(&self, name: &str, near: usize) -> Option<usize>
        ensures { result ≡ place name.now self.now }
    {
        if stands_at(self.list.as_slice(), self.tops.as_slice(), name, near) {
            return Some(near);
        }
        self.place(name)
    }

    /// The local at a place.
    pub fn get(&self, at: usize) -> Option<&Field<Value>>
        ensures { option_copied result ≡ slice_get self.now at }
    {
        match self.list.get(at) {
            Some(local) => Some(&local.field),
            None => None,
        }
    }

    /// A new local, in the time of a look-up on average. It fails only without memory, and then nothing has changed.
    pub fn push(&mut self, alloc: Global, field: Field<Value>) -> Result<(), AllocError>
        ensures ok { OnOk result (self.new ≡ self.old ++ field ∷ []) }
        ensures err { OnErr result (self.new ≡ self.old) }
    {
        add(
            alloc,
            &mut self.list,
            &mut self.numbers,
            &mut self.tops,
            field,
        )
    }

    /// Moves a value into the innermost local of a name, without a look-up. It takes no memory.
    pub fn set(&mut self, at: usize, name: &str, value: Value)
        requires { place name.now self.old ≡ Some at }
        ensures { self.new ≡ slice_set self.old at (name_value name.now value) }
    {
        write(&mut self.list, at, value);
    }

    /// Drops what stands after the first `len` locals, without a look-up. It takes no memory.
    pub fn truncate(&mut self, len: usize)
        ensures { self.new ≡ take len self.old }
    {
        cut(&mut self.list, &mut self.tops, len);
    }
}

// What stands under a number, where there is one.
fn under(tops: &[Option<usize>], number: Option<usize>) -> Option<usize>
    ensures { result ≡ under tops.now number }
{
    match number {
        Some(number) => tops.get(number).copied().flatten(),
        None => None,
    }
}

// Whether the innermost local of this name is known to stand there.
fn stands_at(list: &[Local], tops: &[Option<usize>], name: &str, at: usize) -> bool
    ensures { result ≡ true → (number : List ℕ → Option ℕ) → IsIndexed (names (map (λ l. l.field) list.now)) (map (λ l. l.number) list.now) (map (λ l. l.outer) list.now) number tops.now → last_place name.now (names (map (λ l. l.field) list.now)) ≡ Some at }
{
    let Some(local) = list.get(at) else {
        return false;
    };
    match under(tops, Some(local.number)) {
        Some(top) => top == at && local.field.name.as_str() == name,
        None => false,
    }
}

// The locals with one more.
fn add(
    alloc: Global,
    list: &mut Vec<Local>,
    numbers: &mut BTreeMap<String, usize>,
    tops: &mut Vec<Option<usize>>,
    field: Field<Value>,
) -> Result<(), AllocError>
    requires { IsIndexed (names (map (λ l. l.field) list.old.items)) (map (λ l. l.number) list.old.items) (map (λ l. l.outer) list.old.items) (get_by_text numbers.old) tops.old.items }
    ensures indexed { IsIndexed (names (map (λ l. l.field) list.new.items)) (map (λ l. l.number) list.new.items) (map (λ l. l.outer) list.new.items) (get_by_text numbers.new) tops.new.items }
    ensures ok { OnOk result (map (λ l. l.field) list.new.items ≡ map (λ l. l.field) list.old.items ++ field ∷ []) }
    ensures err { OnErr result (map (λ l. l.field) list.new.items ≡ map (λ l. l.field) list.old.items) }
{
    let number = number_of(alloc, numbers, tops, field.name.as_str())?;
    let at = list.len();
    let outer = under(tops.as_slice(), Some(number));
    list.push(Local {
        field,
        number,
        outer,
    })?;
    put_under(tops, number, Some(at));
    Ok(())
}

// The number of a name, which gets the next one where it has none. What was numbered stays so.
fn number_of(
    alloc: Global,
    numbers: &mut BTreeMap<String, usize>,
    tops: &mut Vec<Option<usize>>,
    name: &str,
) -> Result<usize, AllocError>
    ensures known { IfOk result (λ number. get_by_text numbers.new name.now ≡ Some number) }
    ensures kept { (names : List (List ℕ)) (numbered : List ℕ) (outers : List (Option ℕ)) → IsIndexed names numbered outers (get_by_text numbers.old) tops.old.items → IsIndexed names numbered outers (get_by_text numbers.new) tops.new.items }
{
    if let Some(number) = numbers.get(name) {
        return Ok(*number);
    }
    let key = String::from_str(alloc, name)?;
    let number = tops.len();
    tops.push(None)?;
    point(numbers, key, number)?;
    Ok(number)
}

// Gives a name a number.
fn point(
    numbers: &mut BTreeMap<String, usize>,
    name: String,
    number: usize,
) -> Result<(), AllocError>
    ensures ok { OnOk result (Sets (get_by_text numbers.old) (get_by_text numbers.new) (string_bytes name) number) }
    ensures err { OnErr result ((other : List ℕ) → get_by_text numbers.new other ≡ get_by_text numbers.old other) }
{
    numbers.insert(name, number)?;
    Ok(())
}

// Puts a place under a number.
fn put_under(tops: &mut Vec<Option<usize>>, number: usize, top: Option<usize>)
    ensures { tops.new.items ≡ slice_set tops.old.items number top }
{
    if let Some(old) = tops.get_mut(number) {
        *old = top;
    }
}

// Puts a value into the local at a place.
fn write(list: &mut Vec<Local>, at: usize, value: Value)
    requires { at < length list.old.items }
    ensures numbers { map (λ l. l.number) list.new.items ≡ map (λ l. l.number) list.old.items }
    ensures outers { map (λ l. l.outer) list.new.items ≡ map (λ l. l.outer) list.old.items }
    ensures fields { (name : List ℕ) → slice_get (names (map (λ l. l.field) list.old.items)) at ≡ Some name → map (λ l. l.field) list.new.items ≡ slice_set (map (λ l. l.field) list.old.items) at (name_value name value) }
{
    list[at].field.value = value;
}

// The first `len` locals.
fn cut(list: &mut Vec<Local>, tops: &mut Vec<Option<usize>>, len: usize)
    ensures indexed { (number : List ℕ → Option ℕ) → IsIndexed (names (map (λ l. l.field) list.old.items)) (map (λ l. l.number) list.old.items) (map (λ l. l.outer) list.old.items) number tops.old.items → IsIndexed (names (map (λ l. l.field) list.new.items)) (map (λ l. l.number) list.new.items) (map (λ l. l.outer) list.new.items) number tops.new.items }
    ensures cut { map (λ l. l.field) list.new.items ≡ take len (map (λ l. l.field) list.old.items) }
{
    while list.len() > len {
        drop_last(list, tops);
    }
}

// All locals but the last: what that one shadowed is its name's innermost again.
fn drop_last(list: &mut Vec<Local>, tops: &mut Vec<Option<usize>>)
    ensures indexed { (number : List ℕ → Option ℕ) → IsIndexed (names (map (λ l. l.field) list.old.items)) (map (λ l. l.number) list.old.items) (map (λ l. l.outer) list.old.items) number tops.old.items → IsIndexed (names (map (λ l. l.field) list.new.items)) (map (λ l. l.number) list.new.items) (map (λ l. l.outer) list.new.items) number tops.new.items }
    ensures rest { list.new.items ≡ take (length list.old.items - 1) list.old.items }
{
    if let Some(Local { number, outer, .. }) = list.pop() {
        put_under(tops, number, outer);
    }
}
