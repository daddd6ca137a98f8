//! The numbers of a document's modules and variables.
ghost use Rattle.std.specs.Prelude.{◌≡◌, ◌≤◌};
ghost use Rattle.nb_doc.specs.Numbers.{number_of as number_of_};
ghost use Rattle.nb_doc.specs.Says.{module_number as module_number_, first_variable as first_variable_, next_variable as next_variable_};

/// Where a module of a document stands.
#[derive(Clone, Copy, Debug)]
pub struct Place {
    /// Its number, if no line is refused.
    pub number: u32,
    /// The number of the first variable of its items.
    pub variable: u32,
}

/// The number that no module has.
const NO_MODULE: u32 = 64;

/// The number that no variable has.
const NO_VARIABLE: u32 = 1025;

/// The number of the module at a position.
pub fn number_of(places: &[Place], position: usize) -> u32
    ensures { result ≡ number_of_ places.now position }
{
    match places.get(position) {
        Some(place) => place.number,
        None => 0,
    }
}

/// The number of the module at a position, as lines have it.
pub fn module_number(places: &[Place], position: usize) -> u32
    ensures { result ≡ module_number_ places.now position }
{
    number_of(places, position).min(NO_MODULE)
}

/// The number of the first variable of the items of the module at a position, as lines have it.
pub fn first_variable(places: &[Place], position: usize) -> u32
    ensures value { result ≡ first_variable_ places.now position }
    ensures low { result ≤ 1025 }
{
    match places.get(position) {
        Some(place) => place.variable.min(NO_VARIABLE),
        None => 0,
    }
}

/// The number of the variable after this one, as lines have it.
pub fn next_variable(v: u32) -> u32
    requires { v ≤ 1025 }
    ensures value { result ≡ next_variable_ v }
    ensures low { result ≤ 1025 }
{
    (v + 1).min(NO_VARIABLE)
}
