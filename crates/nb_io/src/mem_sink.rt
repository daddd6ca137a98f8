ghost use Rattle.std.specs.Prelude.{◌≡◌, ◌<◌, [], length, Some, IfOk, IsErr};
ghost use Rattle.std.specs.Io.{WritesAtMost};
ghost use Rattle.std.specs.Io.KnownBytes.{WriteAppends};
ghost use Rattle.nb_io.specs.Calls.{Fails, counted, uncalled};
ghost use Rattle.nb_io.specs.Causes.{HasCause};

use crate::calls::Calls;
use crate::{Failed, Sink};
use nb_value::{Bytes, Numbers};
use std::alloc::Global;

/// A sink in memory, which tells its bytes. `failing` has the numbers of the calls that fail, counted from 1. A call
/// that fails writes nothing; every other takes its whole piece.
#[derive(Drop)]
pub struct MemSink {
    written: Bytes,
    calls: Calls,
    faults: u64,
}

impl MemSink {
    /// An empty sink. It takes no memory yet.
    pub fn new(alloc: Global, failing: Numbers) -> MemSink
        ensures written { ⟦<MemSink as Sink>⟧.written result ≡ Some [] }
        ensures faults { ⟦<MemSink as Sink>⟧.faults result ≡ 0 }
        ensures calls { result.calls ≡ uncalled failing }
    {
        MemSink {
            written: Bytes::new(alloc),
            calls: Calls::new(failing),
            faults: 0,
        }
    }

    /// The bytes that were written.
    pub fn bytes(&self) -> &[u8]
        ensures { ⟦<MemSink as Sink>⟧.written self.now ≡ Some result.now }
    {
        self.written.as_slice()
    }
}

impl Sink for MemSink {
    ghost written = { λ s. Some s.written };

    ghost faults = { λ s. s.faults };

    // Want of memory is a fault of this sink.
    fn write(&mut self, bytes: &[u8]) -> Result<usize, Failed>
        requires { 0 < length bytes.now }
        ensures some { IfOk result (λ n. 0 < n) }
        ensures bound { WritesAtMost result bytes.now }
        ensures bytes { WriteAppends (Some self.old.written) (Some self.new.written) result bytes.now }
        ensures cause { HasCause self.old.faults self.new.faults result }
        ensures calls { self.new.calls ≡ counted self.old.calls }
        ensures fails { Fails self.old.calls → IsErr result }
        ensures whole { IfOk result (λ n. n ≡ length bytes.now) }
    {
        if self.calls.count() || self.written.append(bytes).is_err() {
            self.faults = self.faults.saturating_add(1);
            return Err(Failed);
        }
        Ok(bytes.len())
    }
}
