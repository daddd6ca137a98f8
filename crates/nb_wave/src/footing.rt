ghost use Rattle.std.specs.Prelude.{◌≡◌, ◌↔◌, IsTrue, [], IfOk};
ghost use Rattle.nb_wave.specs.Footings.{same_numbers as are_same, same_base as is_same_base, same_footing};

use nb_value::Numbers;
use std::alloc::{AllocError, Global};

/// What a start of a variable rests on, as docs/RULES.md says.
#[derive(Debug, Drop)]
pub struct Footing {
    /// The place of the edit that gave the variable its body.
    pub place: u64,
    /// 0 for a plain variable, 1 for a duplicate, 2 for a circular one.
    pub mark: u8,
    /// Its inputs as resolved, each as a number.
    pub inputs: Numbers,
    /// The start number of each variable that it needs directly, 0 for an idle one; or none.
    pub starts: Numbers,
    /// The renewal of each variable that it needs directly, 0 for an idle one; or none.
    pub renewals: Numbers,
}

fn are_equal(xs: &[u64], ys: &[u64]) -> bool
    ensures { IsTrue result ↔ (xs.now ≡ ys.now) }
{
    xs == ys
}

/// Whether two lists of numbers are one.
fn same_numbers(xs: &Numbers, ys: &Numbers) -> bool
    ensures { result ≡ are_same xs.now ys.now }
{
    are_equal(xs.as_slice(), ys.as_slice())
}

/// A copy of a list of numbers.
fn copy_numbers(alloc: Global, numbers: &Numbers) -> Result<Numbers, AllocError>
    ensures { IfOk result (λ copy. copy ≡ numbers.now) }
{
    let items = Vec::from_slice(alloc, numbers.as_slice())?;
    Ok(Numbers::from_vec(items))
}

impl Footing {
    /// What a variable rests on that was never put.
    pub(crate) fn empty(alloc: Global) -> Footing
        ensures place { result.place ≡ 0 }
        ensures mark { result.mark ≡ 0 }
        ensures inputs { result.inputs ≡ [] }
        ensures starts { result.starts ≡ [] }
        ensures renewals { result.renewals ≡ [] }
    {
        Footing {
            place: 0,
            mark: 0,
            inputs: Numbers::from_vec(Vec::new(alloc)),
            starts: Numbers::from_vec(Vec::new(alloc)),
            renewals: Numbers::from_vec(Vec::new(alloc)),
        }
    }

    /// Whether two differ in renewals at most. It takes no memory.
    pub(crate) fn same_base(&self, other: &Footing) -> bool
        ensures { result ≡ is_same_base self.now other.now }
    {
        self.place == other.place
            && self.mark == other.mark
            && same_numbers(&self.inputs, &other.inputs)
            && same_numbers(&self.starts, &other.starts)
    }

    /// Whether two are one. It takes no memory.
    pub fn same(&self, other: &Footing) -> bool
        ensures { result ≡ same_footing self.now other.now }
    {
        self.same_base(other) && same_numbers(&self.renewals, &other.renewals)
    }

    /// A copy of its inputs. It fails only without memory.
    pub(crate) fn copy_inputs(&self, alloc: Global) -> Result<Numbers, AllocError>
        ensures { IfOk result (λ copy. copy ≡ self.now.inputs) }
    {
        copy_numbers(alloc, &self.inputs)
    }

    /// A copy. It fails only without memory.
    pub fn copy(&self, alloc: Global) -> Result<Footing, AllocError>
        ensures { IfOk result (λ copy. copy ≡ self.now) }
    {
        Ok(Footing {
            place: self.place,
            mark: self.mark,
            inputs: self.copy_inputs(alloc)?,
            starts: copy_numbers(alloc, &self.starts)?,
            renewals: copy_numbers(alloc, &self.renewals)?,
        })
    }
}
