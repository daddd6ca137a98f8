ghost use Rattle.std.specs.Prelude.{ℕ, ◌<◌, List, length, Option};
ghost use Rattle.std.specs.Io.{ReadsAtMost};
ghost use Rattle.std.specs.Io.KnownBytes.{ReadConsumes};
ghost use Rattle.nb_io.specs.Causes.{HasCause};

use crate::Failed;

/// Where bytes come from, one piece after another.
pub trait Source {
    /// The bytes that are left, where the object tells them.
    ghost left: { Self → Option (List ℕ) };

    /// How often the object has failed, up to the greatest `u64`. It never falls.
    ghost faults: { Self → ℕ };

    /// Puts the next bytes at the front of `buf`, as many as come at once, and gives their number; 0 is the end.
    /// After `Failed` none were taken, and `buf` may have changed.
    fn read(&mut self, buf: &mut [u8]) -> Result<usize, Failed>
        requires { 0 < length buf.old }
        ensures bound { ReadsAtMost result buf.new }
        ensures bytes { ReadConsumes (left self.old) (left self.new) result buf.new }
        ensures cause { HasCause (faults self.old) (faults self.new) result };
}
