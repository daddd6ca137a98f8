ghost use Rattle.nb_io.specs.declared.reading.ReadFail.TheVariants.{Fault, Memory};
ghost use Rattle.nb_io.specs.Causes.{HasCauseAt};
ghost use Rattle.nb_io.specs.Streams.{ReadsAll};

use crate::{Failed, Source};
use nb_value::Bytes;
use std::alloc::{AllocError, Global};
use thiserror::Error;

/// Why a source was not read to its end.
#[derive(Clone, Copy, Debug, Drop, PartialEq, Eq, Error)]
pub enum ReadFail {
    /// The source failed. Its count of faults has risen.
    #[error("the source failed")]
    Fault,
    /// More bytes came than this limit.
    #[error("more than {0} bytes")]
    TooLong(usize),
    /// There was no memory.
    #[error("out of memory")]
    Memory,
}

impl From<Failed> for ReadFail {
    ghost use Rattle.std.specs.Prelude.{◌≡◌};
    ghost use Rattle.nb_io.specs.declared.reading.ReadFail.TheVariants.{Fault};

    ghost from_gives = { λ _ e. e ≡ Fault };

    fn from(_: Failed) -> ReadFail {
        ReadFail::Fault
    }
}

impl From<AllocError> for ReadFail {
    ghost use Rattle.std.specs.Prelude.{◌≡◌};
    ghost use Rattle.nb_io.specs.declared.reading.ReadFail.TheVariants.{Memory};

    ghost from_gives = { λ _ e. e ≡ Memory };

    fn from(_: AllocError) -> ReadFail {
        ReadFail::Memory
    }
}

/// All bytes that come up to the end, if they are at most `limit`. It reads pieces of at most 8,192 bytes, and after
/// `TooLong` has taken no more than one piece above the limit. It takes time and memory linear in the bytes.
pub fn read_to_end<S: Source>(
    alloc: Global,
    source: &mut S,
    limit: usize,
) -> Result<Bytes, ReadFail>
    ensures reads { ReadsAll limit (S.left source.old) (S.left source.new) result }
    ensures cause { HasCauseAt Fault (S.faults source.old) (S.faults source.new) result }
{
    let mut bytes = Bytes::new(alloc);
    let mut piece = [0u8; 8192];
    loop {
        let count = source.read(&mut piece)?;
        if count == 0 {
            return Ok(bytes);
        }
        if count > limit - bytes.len() {
            return Err(ReadFail::TooLong(limit));
        }
        bytes.append(&piece[..count])?;
    }
}
