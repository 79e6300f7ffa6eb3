//! The clock protocol (DEN0056B, clock management protocol, 0x14), and rounding to a supported rate.
//!
//! The main type is `ClockState`, the rate of each clock and whether it is enabled. The main
//! theorem is the contract of `ClockState::execute`: the reply is the row of the protocol's table
//! or the status of the first check that fails, and a rate or an enabled bit changes by a
//! successful command alone. `round` returns the supported rate for a requested one, in the words
//! of its definition.
#![tactic(auto)]

mod checks;
mod clock_done;
mod clock_state;
mod reads;
mod rounding;
mod set_flags;

pub use clock_done::ClockDone;
pub use clock_state::ClockState;
pub use rounding::{Rounding, round};
