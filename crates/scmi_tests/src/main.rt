//! Tests of the public surface, and of what no session shows, by public items alone; and as a
//! program what such tests run from outside (`probe`).
//!
//! `surface` writes each public name as a caller does. These stand beside what a platform without
//! hardware and restarts has, each with its reason in docs/DECISIONS.md:
//!
//! | name | has besides |
//! |---|---|
//! | `Event` | `CommandFailed` and `AdvanceFailed`, each with a `Fault`, `Restarted`, `Promoted`, `Settled` and `Reported` |
//! | `CoreError` | `NoResource` and `NoState`, of a report |
//! | `AgentLog` | `reply_looks`, `message_looks` |
//! | `Channel` | ghost members, by which contracts speak of a channel |
//! | the program | a library, `scmi_modes`, which has its names, and two below it |
#![tactic(auto)]

#[cfg(test)]
mod boards;
#[cfg(test)]
mod channels;
#[cfg(test)]
mod direct_calls;
#[cfg(test)]
mod eleven;
#[cfg(test)]
mod example;
#[cfg(test)]
mod lives;
#[cfg(test)]
mod meeting;
#[cfg(test)]
mod messages;
#[cfg(test)]
mod pair;
mod probe;
#[cfg(test)]
mod race;
#[cfg(test)]
mod surface;

use std::process::ExitCode;

fn main(rt: HostRuntime) -> ExitCode {
    probe::run(&rt)
}
