//! Both sides of SCMI (DEN0056B, version 2.0) over any kind of channel: the agents' endpoints, and
//! the platform's controller.
//!
//! The main types are `AgentEnd` and `Controller`. The main theorem is the contract of `retire`:
//! once all endpoints are gathered, the commands executed for each agent are those that it posted,
//! in order, each once, at most the last left out, and each reply that it read is the answer at
//! that command's place in one legal history.
#![tactic(auto)]

mod agent_end;
mod buffers;
mod connecting;
mod controller;
mod flush;
mod link;
mod lives;
mod pause;
mod plain_calls;
mod processors;
mod report;
mod restart;
mod retire;
mod serve;
mod serve_error;
mod serve_on;
mod shut;
mod wait_reply;
mod waited;

pub use agent_end::AgentEnd;
pub use connecting::connect;
pub use controller::Controller;
pub use link::Link;
pub use lives::every_life;
pub use pause::Pause;
pub use plain_calls::every_plain_call;
pub use processors::Processors;
pub use scmi_link::{Flushed, Served, ShutError};
pub use serve_error::ServeError;
pub use waited::Waited;
