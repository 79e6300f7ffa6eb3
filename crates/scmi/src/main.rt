//! The program for people: it runs sessions, decodes areas of shared memory, draws sessions,
//! answers the lines of a session one by one, checks records of other platforms, and prints boards
//! as tables.
//!
//! The main type is `Asked`, what the arguments ask for. The main theorem is the contract of
//! `run_request`: if the status is 0, a run or a diagram is written to the last byte, dumps have an
//! area, and tables are of a board that keeps every rule; that of `run_session`: if the status is 0,
//! its listener was given exactly the steps of the lines; and that of `run_record`: each line of a
//! record is checked as the line of numbers that is the same step.
#![tactic(auto)]

mod arguments;
mod asked;
mod board_names;
mod command;
mod forms;
mod given;
mod letters;
mod listed;
mod opened;
mod painted;
mod picture;
mod read_as;
mod record;
mod record_cause;
mod refusal;
mod remark;
mod report;
mod report_board;
mod report_record;
mod report_unknown;
mod request;
mod rest;
mod run;
mod serve;
mod serve_check;
mod serve_session;
mod session;
mod session_help;
mod table;
mod table_rows;
mod table_run;
mod table_said;
mod teller;
mod terminal;
mod texts;
mod unknown_text;
mod watched;

use crate::arguments::{ArgumentError, read_arguments};
use crate::refusal::{WRONG_ARGUMENT, refuse, refuse_unread};
use crate::serve::serve;
use crate::terminal::Terminal;
use clap::error::ErrorKind;
use scmi_io::write_fault;
use scmi_modes::RunError;
use std::io::Print;
use std::process::ExitCode;
use std::{env, io};

/// What messages call the input that is no file.
const STANDARD_INPUT: &str = "standard input";

fn main(rt: HostRuntime) -> ExitCode {
    let alloc = rt.alloc();
    let words = match env::args(&rt) {
        Ok(words) => words.skip(1),
        Err(error) if error.kind() == io::ErrorKind::OutOfMemory => {
            return lacks_memory(&rt);
        }
        Err(_) => {
            let _ = eprintln!(rt;
                "scmi: an argument is not UTF-8; rename the file that it names, or see scmi --help"
            );
            return ExitCode::from(WRONG_ARGUMENT);
        }
    };
    let Ok(words) = words.collect::<Vec<String>>(alloc) else {
        return lacks_memory(&rt);
    };
    match read_arguments(alloc, words.as_slice()) {
        Ok(asked) => {
            let terminal = Terminal::of(&rt);
            ExitCode::from(serve(&rt, alloc, asked, terminal))
        }
        Err(ArgumentError::Clap(error)) => {
            if error.kind() == ErrorKind::OutOfMemory {
                return lacks_memory(&rt);
            }
            ExitCode::from(refuse(&rt, alloc, words.as_slice(), &error))
        }
        Err(ArgumentError::Unread(why)) => ExitCode::from(refuse_unread(&rt, alloc, why)),
    }
}

/// Reports that there was no memory to read the arguments.
fn lacks_memory(rt: &impl Print) -> ExitCode {
    let fault = RunError::Memory;
    ExitCode::from(write_fault(&mut io::writer(rt), &fault, fault.status()))
}
