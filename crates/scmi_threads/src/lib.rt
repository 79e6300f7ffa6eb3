//! Agents of SCMI (DEN0056B, version 2.0) in threads of their own, beside one platform controller.
//!
//! The main type is `Outcome`, what a run of scripts leaves. The main theorem is the contract of
//! `run_agents`: whatever the threads' order, the outcome's trace is a legal history of the plan,
//! and each agent's log agrees with it: its commands were executed in order, each once, at most the
//! last left out, and each answer that it read is the one at its command's place. And each log
//! follows its agent's script, order by order, and nothing is done after a close.
#![tactic(auto)]

mod agent_log;
mod agents_side;
mod both_sides;
mod call_order;
mod close_order;
mod concluding;
mod gate;
mod limits;
mod outcome;
mod p2a_order;
mod platform_side;
mod script_run;
mod starting;
mod stop;
mod threads;
mod until_order;

pub use agent_log::AgentLog;
pub use gate::{Gate, OpenGate};
pub use limits::{CALLS, TURNS};
pub use outcome::Outcome;
pub use scmi_link::{Line, Order, Script};
pub use stop::Stop;
pub use threads::{run_agents, run_agents_on};
