//! Numbers of keys: names, places and sources.

ghost use Rattle.std.specs.Prelude.{ℕ, ◌≡◌, ◌<◌, ◌≤◌, length, IfOk};
ghost use Rattle.nb_index.specs.Keys.{number_in, is_name, is_place, is_source, IsNumber, Grows, NamedBelow};

use indexmap::IndexSet;
use std::alloc::{AllocError, Global};

/// The number of a name, and as many as there are names where it isn't one of them. It takes no memory.
pub fn name_number(names: &IndexSet<String>, name: &str) -> usize
    ensures { result ≡ number_in is_name names.now.keys name.now }
{
    names.get_index_of(name).unwrap_or(names.len())
}

/// The number of a place, and as many as there are places where it isn't one of them. It takes no memory.
pub fn place_number(places: &IndexSet<(u32, usize)>, place: (u32, usize)) -> usize
    ensures { result ≡ number_in is_place places.now.keys place }
{
    places.get_index_of(&place).unwrap_or(places.len())
}

/// The number of a source, and as many as there are sources where it isn't one of them. It takes no memory.
pub fn source_number(sources: &IndexSet<u32>, from: u32) -> usize
    ensures { result ≡ number_in is_source sources.now.keys from }
{
    sources.get_index_of(&from).unwrap_or(sources.len())
}

/// The number of a name, which becomes the last where it isn't there. It fails only without memory, and then nothing has
/// changed.
pub fn add_name(
    alloc: Global,
    names: &mut IndexSet<String>,
    name: &str,
) -> Result<usize, AllocError>
    ensures number { IfOk result (IsNumber is_name names.new.keys name.now) }
    ensures grows { Grows is_name names.old.keys names.new.keys }
    ensures len { length names.old.keys ≤ length names.new.keys }
{
    if let Some(number) = names.get_index_of(name) {
        return Ok(number);
    }
    let (number, _) = names.insert_full(String::from_str(alloc, name)?)?;
    Ok(number)
}

/// The number of a place, which becomes the last where it isn't there. It fails only without memory, and then nothing has
/// changed.
pub fn add_place(
    places: &mut IndexSet<(u32, usize)>,
    place: (u32, usize),
) -> Result<usize, AllocError>
    ensures number { IfOk result (IsNumber is_place places.new.keys place) }
    ensures grows { Grows is_place places.old.keys places.new.keys }
    ensures len { length places.old.keys ≤ length places.new.keys }
    ensures named { (n : ℕ) → place.1 < n → NamedBelow n places.old.keys → NamedBelow n places.new.keys }
{
    let (number, _) = places.insert_full(place)?;
    Ok(number)
}

/// The number of a source, which becomes the last where it isn't there. It fails only without memory, and then nothing has
/// changed.
pub fn add_source(sources: &mut IndexSet<u32>, from: u32) -> Result<usize, AllocError>
    ensures number { IfOk result (IsNumber is_source sources.new.keys from) }
    ensures grows { Grows is_source sources.old.keys sources.new.keys }
    ensures len { length sources.old.keys ≤ length sources.new.keys }
{
    let (number, _) = sources.insert_full(from)?;
    Ok(number)
}
