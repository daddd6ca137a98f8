ghost use Rattle.nb_io.specs.Causes.{HasCause};
ghost use Rattle.nb_io.specs.Streams.{WritesAll, joined};

use crate::{Failed, Sink};

/// Writes all bytes, in as many calls as the sink needs. After `Failed` a front of them was written, which may be
/// empty or whole. It takes no memory.
pub fn write_whole<K: Sink>(sink: &mut K, bytes: &[u8]) -> Result<(), Failed>
    ensures writes { WritesAll bytes.now (K.written sink.old) (K.written sink.new) result }
    ensures cause { HasCause (K.faults sink.old) (K.faults sink.new) result }
{
    let mut at = 0;
    while at < bytes.len() {
        at += sink.write(&bytes[at..])?;
    }
    Ok(())
}

/// Writes pieces one after another, as `write_whole` would write them joined. It takes no memory.
pub fn write_pieces<K: Sink>(sink: &mut K, pieces: &[&[u8]]) -> Result<(), Failed>
    ensures writes { WritesAll (joined pieces.now) (K.written sink.old) (K.written sink.new) result }
    ensures cause { HasCause (K.faults sink.old) (K.faults sink.new) result }
{
    for piece in pieces {
        write_whole(sink, piece)?;
    }
    Ok(())
}
