ghost use Rattle.std.specs.Prelude.{◌≡◌, ◌↔◌, IsTrue};

use nb_value::Numbers;

/// The calls of an object in memory: how many there were, up to the greatest `u64`, and the numbers of those that fail,
/// counted from 1.
#[derive(Debug, Drop)]
pub struct Calls {
    failing: Numbers,
    made: u64,
}

impl Calls {
    ghost use Rattle.nb_io.specs.Calls.{Fails, counted, uncalled};

    /// No calls so far, of which those with these numbers fail.
    pub fn new(failing: Numbers) -> Calls
        ensures { result ≡ uncalled failing }
    {
        Calls { failing, made: 0 }
    }

    /// Counts a call, and tells whether it is one of those that fail, in time linear in their number.
    pub fn count(&mut self) -> bool
        ensures counted { self.new ≡ counted self.old }
        ensures fails { IsTrue result ↔ Fails self.old }
    {
        self.made = self.made.saturating_add(1);
        self.failing.contains(self.made)
    }
}
