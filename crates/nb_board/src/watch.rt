ghost use Rattle.std.specs.Prelude.{◌≡◌, ◌<◌, ◌≤◌, ◌-◌, is_some, true};
ghost use Rattle.nb_board.specs.Boards.{IsOn, number_of, word_at, word_of};

use crate::Reader;
use nb_poll::Poll;

/// The poll of a job: watches the word of its variable for its start. It keeps how often it was asked and how often it gave
/// a number, each up to the greatest `u64`. Where it was asked, its reader's last load is of that word; where it has given a
/// number, that load read this number, which is above the start; else it read none above the start.
#[derive(Drop)]
pub struct Watch<'a> {
    reader: &'a mut Reader,
    var: u32,
    start: u64,
    asked: u64,
    given: u64,
    found: u64,
    ghost inside: { IsOn reader.now.size var },
    ghost order: { 0 < given → 0 < asked },
    ghost read: { 0 < asked → (is_some reader.now.last ≡ true) × (word_of reader.now.last ≡ word_at var) },
    ghost above: { 0 < given → (number_of reader.now.last ≡ found) × (start < found) },
    ghost below: { 0 < asked → given ≡ 0 → number_of reader.now.last ≤ start },
}

impl Reader {
    /// A watch of the variable's word for a start, which wasn't asked yet. Constant time, no memory. The reader is lent to
    /// the watch as long as that lives.
    pub fn watch(&mut self, var: u32, start: u64) -> Watch<'_>
        requires { IsOn self.old.size var }
        ensures new { (result.asked ≡ 0) × (result.given ≡ 0) × (result.var ≡ var) × (result.start ≡ start) }
        ensures same_reference { result.reader.ghost_name ≡ self.entry.ghost_name }
        ensures reader { result.reader.now ≡ self.old }
    {
        Watch {
            reader: self,
            var,
            start,
            asked: 0,
            given: 0,
            found: 0,
        }
    }
}

/// Until it has given a number, each call is one `Reader::newer`. Afterwards it gives that number again and loads nothing.
impl Poll for Watch<'_> {
    ghost asked = { λ w. w.asked };

    ghost given = { λ w. w.given };

    ghost last = { λ w. w.found };

    ghost kept = { λ w. (w.reader.ghost_name, w.reader.now.size) };

    fn newer(&mut self) -> Option<u64> {
        self.asked = self.asked.saturating_add(1);
        if self.given > 0 {
            self.given = self.given.saturating_add(1);
            return Some(self.found);
        }
        let answer = self.reader.newer(self.var, self.start);
        if let Some(number) = answer {
            self.found = number;
            self.given = 1;
        }
        answer
    }
}
