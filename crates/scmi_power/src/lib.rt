//! The power domain protocol (DEN0056B, power domain management protocol, 0x11).
//!
//! The main type is `PowerState`, the state of each domain and who is notified of its changes. The
//! main theorem is the contract of `PowerState::execute`: the reply is the row of the protocol's
//! table or the status of the first check that fails, a successful synchronous set changes its
//! domain at once, and an asynchronous one only names what is to be completed later.
#![tactic(auto)]

mod checks;
mod domain_attributes;
mod domain_state;
mod power_done;
mod power_effect;
mod power_state;
mod reads;
mod subscribers;

pub use power_done::PowerDone;
pub use power_effect::PowerEffect;
pub use power_state::PowerState;
