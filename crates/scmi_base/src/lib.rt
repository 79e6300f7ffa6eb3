//! The base protocol (DEN0056B, base protocol, 0x10), and who may change what.
//!
//! The main type is `BaseState`, which holds for each agent and device whether the agent is allowed
//! there, on the device as a whole and for each protocol. The main theorem is the contract of
//! `BaseState::execute`: the reply is the row of the protocol's table or the status of the first
//! check that fails, and permissions change by a successful command alone. `BaseState::may_change`
//! returns whether an agent may change a resource.
#![tactic(auto)]

mod base_done;
mod base_state;
mod checks;
mod discovery;
mod permission_table;

pub use base_done::BaseDone;
pub use base_state::BaseState;
