//! A platform controller and its agents, a step at a time or in threads, and the modes of a run: from
//! bytes in to bytes out.
//!
//! The first line of the input names a mode. The main types are `Mode` and `Modes`, those that a
//! program takes; the main theorem is the contract of `run`: if the status is 0, what was written
//! is what the mode makes of the board and the scripts that the input encodes, or in the mode `once`
//! of its area; else the line of a fault of this input, which has that status. `run_program` is the
//! same in modes for people too.
//!
//! `Session` is both sides of a board on one thread: its controller, its agents and the channels
//! between them. By the contract of `Session::step` each step is made once, on the channels of its
//! agent, and leaves there what that call leaves; the endpoints of all other agents stay as they
//! were, and its line reports what the call answered. A step beside hardware that refuses is made so
//! that no change is taken, and what the hardware reports is taken over.
//!
//! A function whose name ends in `_counted`, and `run_input`, promise how often their reader is
//! read: it is one that counts. All that a run of agents is made of, such as `Script` and `Gate`, is
//! here too.
#![tactic(auto)]

mod agent_steps;
mod agents;
mod answer;
mod any_mode;
mod described;
mod kind;
mod lines;
mod mode;
mod mode_lines;
mod once;
mod program;
mod reference_board;
mod refused_steps;
mod refusing;
mod run_error;
mod script_kind;
mod session;
mod standing;
mod steps;
mod threads;

pub use agents::run_agents;
pub use answer::answer_area;
pub use any_mode::{AnyMode, Modes};
pub use described::{plan_of, read_described};
pub use kind::Kind;
pub use mode::Mode;
pub use mode_lines::{
    HARDWARE_RINGS, HARDWARE_WORDS, ONCE, STEPS_RINGS, STEPS_WORDS, THREADS_RINGS, THREADS_WORDS,
};
pub use once::{run_once, run_once_counted};
pub use program::{run, run_input, run_program};
pub use run_error::RunError;
pub use scmi_threads::{AgentLog, Gate, Line, OpenGate, Order, Outcome, Script, Stop};
pub use script_kind::ScriptKind;
pub use session::Session;
pub use standing::{Dropped, Standing};
pub use steps::{run_hardware_counted, run_steps, run_steps_counted};
pub use threads::{run_threads, run_threads_counted};
