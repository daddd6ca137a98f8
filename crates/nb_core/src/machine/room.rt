ghost use Rattle.std.specs.Prelude.{◌≡◌, ◌≤◌, vec_len, vec_capacity, OnOk};
ghost use Rattle.nb_core.specs.Stands.{room_of};

use nb_log::Log;
use nb_runs::Ticket;
use std::alloc::AllocError;

/// Makes room for more entries, each of which may ask for a ticket. It fails only without memory.
pub fn make_room(log: &mut Log, tickets: &mut Vec<Ticket>, n: usize) -> Result<(), AllocError>
    ensures entries { log.new.entries ≡ log.old.entries }
    ensures tickets { tickets.new.items ≡ tickets.old.items }
    ensures room { OnOk result (n ≤ room_of log.new.room (vec_capacity tickets.new) (vec_len tickets.new)) }
{
    log.reserve(n)?;
    tickets.reserve(n)?;
    Ok(())
}
