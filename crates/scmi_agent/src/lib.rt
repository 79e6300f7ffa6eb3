//! The agent's side of SCMI (DEN0056B, version 2.0): commands are written into the area of a channel, and
//! replies, delayed responses and notifications are read from one.
//!
//! The main type is `Agent`, which counts tokens and knows which command it posted last. The main
//! theorems are the contracts of `Agent::post` (the area is that of the command at the agent's next
//! token) and of `Agent::reply` (what is read answers the command that was posted, and no other).
#![tactic(auto)]

mod agent;
mod answer;
mod base_reply;
mod clock_reply;
mod error;
mod notice;
mod power_reply;
mod reply;

pub use agent::Agent;
pub use base_reply::BaseReply;
pub use clock_reply::ClockReply;
pub use error::{PostError, ReadError};
pub use notice::{Notice, read_notice, release};
pub use power_reply::PowerReply;
pub use reply::Reply;
