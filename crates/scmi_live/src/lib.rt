//! Sessions whose lines are answered one by one, and in which names may replace numbers.
//!
//! The main theorems are the contract of `step_meant`, the step that a line encodes: that of its
//! numbers, as a script has it, or else that of its names; and that of `run_live`: a listener is
//! given exactly these steps, each with the line that it gives, in order, and at the end the length
//! of the history; after an error, exactly those of the lines before. How they are written is the
//! listener's.
#![tactic(auto)]

mod flags;
mod hertz;
mod items;
mod left_items;
mod letters;
mod listener;
mod live;
mod live_error;
mod meant;
mod messages;
mod named;
mod named_call;
mod named_step;
mod numbering;
mod payload;
mod pieces;
mod rate;
mod reports;
mod run;
mod unknown;
mod word;

pub use flags::{FlagsRow, HeldFlags, flags_of};
pub use hertz::in_hertz;
pub use listener::Listener;
pub use live_error::LiveError;
pub use meant::{HELP, step_meant};
pub use numbering::{line_in_numbers, numbered};
pub use rate::rate_meant;
pub use run::run_live;
pub use unknown::{Unknown, unknown_in};
