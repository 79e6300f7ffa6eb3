//! The program's text: scripts as they are read, and the lines of a run as they are written.
//!
//! The main types are `StepList`, the steps of a script, and `StepLine`, a line of a run's output.
//! The main theorems are the contracts of `read_steps`, `read_hardware_steps` and `read_scripts`,
//! which give exactly what a text encodes, or else the number of the first invalid line, unless
//! memory is refused; and of `write_step_line` and `write_script_line`: what is written is the text
//! of the line, to the last byte.
#![tactic(auto)]

mod fields;
mod head;
mod lines;
mod names;
mod order_form;
mod plain_step;
mod received;
mod report;
mod script_line;
mod script_list;
mod scripts;
mod step;
mod step_form;
mod step_head;
mod step_kinds;
mod step_line;
mod step_list;
mod steps;
mod value;
mod word_row;
mod words;

pub use fields::{read_agent, read_payload};
pub use plain_step::PlainStep;
pub use report::read_report;
pub use script_line::{write_script_line, write_script_lines};
pub use scripts::read_scripts;
pub use step::{AgentStep, Call, PlatformStep, Step};
pub use step_form::{AgentForm, CommandForm, REPORT_FORMS, ReportForm, STEP_FORMS, StepForm};
pub use step_line::{StepLine, write_step_line};
pub use step_list::StepList;
pub use steps::{read_hardware_steps, read_one_hardware_step, read_one_step, read_steps};
pub use word_row::{HeldRow, WordRow, form_in};
pub use words::write_message_text;
