//! The sequence chart of a script's run, as an SVG or as a Mermaid diagram.
//!
//! The main type is `Chart`, which a `Recorder` makes of the run's steps. The main theorem is the
//! contract of `read_chart`: the chart's marks are those of the lines of the input's steps on its
//! board, in order, and no others; for agents in threads, of the one history that their run left.
//! A diagram has a line for each. No text is read as a part of a picture; how it looks is tested.
#![tactic(auto)]

mod arrows;
mod asked;
mod board_names;
mod chart;
mod close_marks;
mod column;
mod command_marks;
mod detail;
mod diagram;
mod diagram_value;
mod drawing;
mod drawn_label;
mod drawn_marks;
mod escape;
mod event;
mod exchange_marks;
mod fields;
mod flags;
mod history;
mod label;
mod laters;
mod legend;
mod levels;
mod lifeline;
mod lifelines;
mod mark;
mod marks;
mod measure;
mod message;
mod needs;
mod parties;
mod picture;
mod place;
mod platform_marks;
mod posted_label;
mod posts;
mod rate;
mod record_step;
mod recorder;
mod reply_label;
mod report_marks;
mod run;
mod script;
mod shape;
mod sign;
mod style;
mod subject;
mod threads;
mod value;
mod words;

pub use chart::{Chart, Column, Dropped, Kind, Lifeline, Span, State, Step};
pub use diagram::write_diagram;
pub use drawing::{Form, draw, draw_input, read_chart, run_draw};
pub use escape::write_escaped;
pub use levels::Levels;
pub use mark::{Label, Mark, Message, Outcome, Side};
pub use picture::write_chart;
pub use rate::write_rate;
pub use recorder::Recorder;
pub use run::{STEPS, chart_of, title_of};
pub use subject::Subject;
pub use threads::chart_of_threads;
