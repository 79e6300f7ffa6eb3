//! The agent's side of SCMI (DEN0056B, version 2.0) for a program in C: the calls of
//! `include/scmi_agent.h`.
//!
//! The main type is `State`, an agent as C holds it. The main theorem is the contract of the calls that
//! post: the area is that of the command at the agent's next token, or nothing changed.
#![tactic(auto)]

mod base;
mod clock;
mod code;
mod message;
mod post;
mod power;
mod reply;
mod state;
