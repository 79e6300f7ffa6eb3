//! Laws over the definitions of `scmi_core`, and one round of the platform over `scmi_ends`.
//!
//! The main definition is `is_read`: which commands only read (specs/Reads.antt). The main theorem
//! is the contract of `every_read`: reads move nobody. A legal history without one agent's reads
//! and refused commands is as legal, and the same to every other agent. `every_other_agent` and
//! `every_event` have all that other commands and the other events are to another agent.
//! `every_change`: no two changes came of one command or one report of the hardware.
//!
//! `run_round` is progress, as far as calls go: it serves each agent once, ends the first pending
//! set, and flushes each outbox once. Then no agent is owed an answer, that set is gone, and a
//! message that still waits has another in its channel, unless that is closed or may be full. No
//! agent has more than one turn. Nothing is said of time, or of what another thread posts meanwhile
//! (specs/Round.antt).
#![tactic(auto)]

mod causes;
mod others;
mod reads;
mod rounds;

pub use causes::every_change;
pub use others::{every_event, every_other_agent};
pub use reads::every_read;
pub use rounds::run_round;
