//! The starts of variables and their tickets, and what each entry of the log makes of them.
#![tactic(auto)]

mod answers;
mod law;
mod run_state;
mod runs;
mod started;
pub mod starts;
pub mod tickets;

pub use answers::Answers;
pub use law::law_of_states;
pub use run_state::{Change, RunState};
pub use runs::Runs;
pub use started::Started;
pub use tickets::Ticket;
