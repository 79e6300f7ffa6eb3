//! The platform controller of SCMI (DEN0056B, version 2.0) for a program in C: the calls of
//! `include/scmi.h`.
//!
//! The main type is `Handle`, a platform as its pointer, and null if there is none. The main
//! theorem is the contract of `scmi_answer`: the area after it is the definition's answer at that
//! place of a history which is one event longer, or nothing changed.
#![tactic(auto)]

mod answer;
mod answer_in;
mod answer_words;
mod area;
mod aside;
mod ask;
mod ask_in;
mod ask_words;
mod board;
mod board_of_tables;
mod channel;
mod code;
mod commit;
mod commit_in;
mod commit_rate;
mod commit_words;
mod desk;
mod effect;
mod ends;
mod ends_at;
mod fault;
mod handle;
mod held;
mod held_commands;
mod held_pending;
mod history;
mod laws;
mod loose;
mod numbers;
mod open;
mod open_tables;
mod pending_rate;
mod refusal;
mod refuse;
mod reply;
mod report;
mod restart;
mod rows;
mod send;
mod settle;
mod settle_rate;
mod settle_words;
mod slow;
mod table_lines;
mod tabled;
mod tables;
mod values;
mod waiting;
mod words;

pub use laws::{every_driver, nothing_held_back, plain_histories};
