ghost use Rattle.std.specs.Prelude.{◌≡◌, ◌<◌, ◌≤◌, ◌↔◌, length, drop, min, Some, IfOk, IsErr};
ghost use Rattle.std.specs.Io.{ReadsAtMost};
ghost use Rattle.std.specs.Io.KnownBytes.{ReadConsumes};
ghost use Rattle.nb_io.specs.Calls.{Fails, counted, uncalled};
ghost use Rattle.nb_io.specs.Causes.{HasCause};

use crate::calls::Calls;
use crate::{Failed, Source};
use nb_value::{Bytes, Numbers};

/// A source in memory, which tells its bytes. `failing` has the numbers of the calls that fail, counted from 1. A call
/// that fails takes no bytes, so the next goes on where it stood.
#[derive(Drop)]
pub struct MemSource {
    content: Bytes,
    piece: usize,
    at: usize,
    calls: Calls,
    faults: u64,
    ghost some: { 0 < piece },
    ghost within: { at ≤ length content },
}

impl MemSource {
    /// A source of these bytes, of which a read gives at most `piece`.
    pub fn new(content: Bytes, piece: usize, failing: Numbers) -> MemSource
        requires { 0 < piece }
        ensures left { ⟦<MemSource as Source>⟧.left result ≡ Some content }
        ensures faults { ⟦<MemSource as Source>⟧.faults result ≡ 0 }
        ensures piece { result.piece ≡ piece }
        ensures calls { result.calls ≡ uncalled failing }
    {
        MemSource {
            content,
            piece,
            at: 0,
            calls: Calls::new(failing),
            faults: 0,
        }
    }
}

impl Source for MemSource {
    ghost left = { λ s. Some (drop s.at s.content) };

    ghost faults = { λ s. s.faults };

    fn read(&mut self, buf: &mut [u8]) -> Result<usize, Failed>
        ensures bound { ReadsAtMost result buf.new }
        ensures bytes { ReadConsumes (Some (drop self.old.at self.old.content)) (Some (drop self.new.at self.new.content)) result buf.new }
        ensures cause { HasCause self.old.faults self.new.faults result }
        ensures count { IfOk result (λ n. n ≡ min (min (length (drop self.old.at self.old.content)) self.old.piece) (length buf.new)) }
        ensures piece { self.new.piece ≡ self.old.piece }
        ensures calls { self.new.calls ≡ counted self.old.calls }
        ensures fails { IsErr result ↔ Fails self.old.calls }
    {
        if self.calls.count() {
            self.faults = self.faults.saturating_add(1);
            return Err(Failed);
        }
        let rest = &self.content.as_slice()[self.at..];
        let count = rest.len().min(self.piece).min(buf.len());
        buf[..count].copy_from_slice(&rest[..count]);
        self.at += count;
        Ok(count)
    }
}
