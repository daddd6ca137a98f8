ghost use Rattle.std.specs.Prelude.{◌≡◌, ℕ, IfSome, IfNone};
ghost use Rattle.nb_poll.specs.Polls.{Rises};

/// What is asked whether there is a newer number, as work does between two slices. It has no faults.
pub trait Poll {
    /// How often the object was asked, up to the greatest `u64`. It never falls.
    ghost asked: { Self → ℕ };

    /// How often the object has given a number, up to the greatest `u64`. It never falls.
    ghost given: { Self → ℕ };

    /// The number that the object gave last, where it has given one.
    ghost last: { Self → ℕ };

    /// What stays the same in every call, as which object of a board is asked.
    ghost kept: { Self → ℕ × ℕ };

    /// The newer number, if there is one. The count of what was given rises only where a number is answered.
    fn newer(&mut self) -> Option<u64>
        ensures asked { Rises (asked self.old) (asked self.new) }
        ensures some { IfSome result (λ number. Rises (given self.old) (given self.new) × (last self.new ≡ number)) }
        ensures none { IfNone result (given self.new ≡ given self.old) }
        ensures last { IfNone result (last self.new ≡ last self.old) }
        ensures kept { kept self.new ≡ kept self.old };
}
