ghost use Rattle.std.specs.Prelude.{ℕ, ◌≡◌, ◌+◌, ◌-◌, ◌^◌, ◌↔◌, min, IfSome, IfNone, IsSome};
ghost use Rattle.nb_poll.specs.Polls.{IsAnswered, Rises};

use crate::Poll;

/// A poll in memory, which gives one number from a call on. The calls are counted from 1, up to the greatest `u64`.
#[derive(Debug, Drop)]
pub struct MemPoll {
    at: u64,
    number: u64,
    asked: u64,
    given: u64,
}

impl MemPoll {
    /// A poll that gives the number from its call `at` on, and never where `at` is 0. It wasn't asked yet.
    pub fn new(at: u64, number: u64) -> MemPoll
        ensures asked { ⟦<MemPoll as Poll>⟧.asked result ≡ 0 }
        ensures given { ⟦<MemPoll as Poll>⟧.given result ≡ 0 }
        ensures at { result.at ≡ at }
        ensures number { result.number ≡ number }
    {
        MemPoll {
            at,
            number,
            asked: 0,
            given: 0,
        }
    }
}

impl Poll for MemPoll {
    ghost asked = { λ p. p.asked };

    ghost given = { λ p. p.given };

    ghost last = { λ p. p.number };

    ghost kept = { λ p. (p.at, p.number) };

    fn newer(&mut self) -> Option<u64>
        ensures asked { self.new.asked ≡ min (self.old.asked + 1) (2 ^ 64 - 1) }
        ensures rises { Rises self.old.asked self.new.asked }
        ensures some { IfSome result (λ number. (number ≡ self.old.number) × (self.new.given ≡ min (self.old.given + 1) (2 ^ 64 - 1))) }
        ensures gives { IfSome result (λ _. Rises self.old.given self.new.given) }
        ensures none { IfNone result (self.new.given ≡ self.old.given) }
        ensures answered { IsSome result ↔ IsAnswered self.old.at self.new.asked }
        ensures last { self.new.number ≡ self.old.number }
        ensures kept { ◌≡◌ {A = ℕ × ℕ} (self.new.at, self.new.number) (self.old.at, self.old.number) }
    {
        self.asked = self.asked.saturating_add(1);
        if self.at == 0 || self.asked < self.at {
            return None;
        }
        self.given = self.given.saturating_add(1);
        Some(self.number)
    }
}
