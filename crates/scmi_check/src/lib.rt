//! Records of what went over another platform's channels, checked against the definitions of SCMI.
//!
//! The main theorem is the contract of `check_record`, which reads a record a line at a time, and
//! gives a `Listener` the verdict on each entry: however many of the entries are taken, from the
//! first on, none of them differs if and only if a legal history of the board is behind them. That of
//! `read_record` is that it gives exactly the entries that a text encodes, and what is not judged.
#![tactic(auto)]

mod area_shown;
mod asking;
mod check;
mod check_error;
mod check_row;
mod checked;
mod command_shown;
mod counts;
mod deciding;
mod entry_name;
mod event_shown;
mod fields_text;
mod finding;
mod json;
mod judged;
mod keeper;
mod last_lines;
mod last_sets;
mod left_out;
mod listener;
mod names;
mod note;
mod note_text;
mod options;
mod own_rule;
mod own_test;
mod progress;
mod reasons;
mod record;
mod report;
mod run;
mod seen;
mod shown;
mod so_far;
mod subject;
mod trace_line;
mod trace_time;
mod under_way;
mod waiting;

pub use check::{PLACES, check_record};
pub use check_error::CheckError;
pub use checked::{Checked, DIFFERS, UNSURE};
pub use finding::Finding;
pub use judged::Judged;
pub use keeper::Keeper;
pub use left_out::LeftOut;
pub use listener::Listener;
pub use names::{Names, NoNames};
pub use note::{Lost, Note, NoteKind};
pub use options::CheckOptions;
pub use own_rule::{OWN_RULES, OwnRule};
pub use record::{Placed, Record, read_record};
pub use report::{Report, Style};
pub use run::{PROTOCOLS, run_check};
pub use scmi_judge::{NOTHING_UNSEEN, Refusals, Unseen};
