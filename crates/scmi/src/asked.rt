//! What the matches of a command line ask for.

use crate::command::{
    BINARY, FIRST, HELP, JSON, MERMAID, OFFSET, PROTOCOLS, REFUSALS, RESTARTS, SAVE, SECOND, SIZE,
    STRIDE, TAP, VERSION,
};
use crate::forms::task_of;
use crate::request::{Request, Task};
use clap::ArgMatches;
use scmi_board::number;
use scmi_check::{NOTHING_UNSEEN, Refusals, Style, Unseen};
use scmi_decode::{Layout, LayoutError};

/// The name that standard input has among arguments.
pub const STANDARD: &str = "-";

/// What the program is asked for, with its files.
#[derive(Clone, Copy)]
pub struct Asked<'a> {
    pub request: Request,
    /// The form of the report of a check.
    pub style: Style,
    /// The protocols that are judged in a record.
    pub protocols: Option<&'a str>,
    /// What may have happened behind a record that no entry shows.
    pub unseen: Unseen,
    /// The file of the input, or of a board.
    pub first: Option<&'a str>,
    /// The file of a record.
    pub second: Option<&'a str>,
    /// The file into which a session is saved.
    pub save: Option<&'a str>,
}

/// Why a command line that clap takes asks for nothing.
#[derive(Clone, Copy)]
pub enum Unread<'a> {
    /// This word asks for no task.
    Task(&'a str),
    /// The name of a file begins with a dash.
    Dash(&'a str),
    /// The value of this option is no number.
    Number(&'static str, &'a str),
    /// These are not the places of areas.
    Layout(LayoutError),
}

/// What the matches of a command line ask for.
pub fn asked_of<'a>(matches: &ArgMatches<'a>) -> Result<Asked<'a>, Unread<'a>> {
    let task = task_by_flags(matches);
    match matches.subcommand() {
        Some((word, inner)) if matches!(task, Task::Run) => asked_below(word, inner),
        _ => Ok(with_no_file(Request::Do(task))),
    }
}

/// What the flags before the word of a task ask for: a run if there are none.
fn task_by_flags(matches: &ArgMatches<'_>) -> Task {
    if matches.get_flag(HELP) {
        Task::Help
    } else if matches.get_flag(VERSION) {
        Task::Version
    } else {
        Task::Run
    }
}

/// What the word of a task and the matches after it ask for.
fn asked_below<'a>(word: &'a str, matches: &ArgMatches<'a>) -> Result<Asked<'a>, Unread<'a>> {
    match task_of(word) {
        Some(Task::Help) => Ok(with_no_file(help_by(matches)?)),
        Some(task) if matches.get_flag(HELP) => Ok(with_no_file(Request::HelpOn(task))),
        Some(task) => task_by(task, matches),
        None => Err(Unread::Task(word)),
    }
}

/// What the matches after the word for help ask for.
fn help_by<'a>(matches: &ArgMatches<'a>) -> Result<Request, Unread<'a>> {
    if matches.get_flag(HELP) {
        return Ok(Request::HelpOn(Task::Help));
    }
    match matches.get_str(FIRST) {
        None => Ok(Request::Do(Task::Help)),
        Some(word) => match task_of(word) {
            Some(task) => Ok(Request::HelpOn(task)),
            None => Err(Unread::Task(word)),
        },
    }
}

/// What the matches after the word of a task ask for, if that is not its help.
fn task_by<'a>(task: Task, matches: &ArgMatches<'a>) -> Result<Asked<'a>, Unread<'a>> {
    let first = matches.get_str(FIRST);
    let second = matches.get_str(SECOND);
    let save = matches.get_str(SAVE);
    if let Some(name) = no_file(first, second, save) {
        return Err(Unread::Dash(name));
    }
    Ok(Asked {
        request: request_by(task, matches)?,
        style: style_by(matches),
        protocols: matches.get_str(PROTOCOLS),
        unseen: unseen_by(matches),
        first,
        second,
        save,
    })
}

/// The request of a task.
fn request_by<'a>(task: Task, matches: &ArgMatches<'a>) -> Result<Request, Unread<'a>> {
    match task {
        Task::Decode => decode_by(matches),
        _ if matches.get_flag(MERMAID) => Ok(Request::Diagram),
        _ => Ok(Request::Do(task)),
    }
}

/// The form of a report of check.
fn style_by(matches: &ArgMatches<'_>) -> Style {
    if matches.get_flag(JSON) {
        Style::Json
    } else if matches.get_flag(TAP) {
        Style::Tap
    } else {
        Style::Plain
    }
}

/// What may have happened behind a record that no entry shows.
fn unseen_by(matches: &ArgMatches<'_>) -> Unseen {
    let refusals = if matches.get_flag(REFUSALS) {
        Refusals::Answered
    } else {
        Refusals::None
    };
    Unseen {
        refusals,
        restarts: matches.get_flag(RESTARTS),
    }
}

/// What the options of decode ask for.
fn decode_by<'a>(matches: &ArgMatches<'a>) -> Result<Request, Unread<'a>> {
    let offset = number_by(matches, OFFSET)?;
    let size = number_by(matches, SIZE)?;
    let stride = number_by(matches, STRIDE)?;
    match Layout::new(offset, size, stride) {
        Ok(layout) if matches.get_flag(BINARY) => Ok(Request::Bytes(layout)),
        Ok(layout) => Ok(Request::Dumps(layout)),
        Err(error) => Err(Unread::Layout(error)),
    }
}

/// The number of bytes that an option has, if it is used.
fn number_by<'a>(
    matches: &ArgMatches<'a>,
    option: &'static str,
) -> Result<Option<usize>, Unread<'a>> {
    match matches.get_str(option) {
        None => Ok(None),
        Some(word) => match number(word.as_bytes()) {
            Some(count) => Ok(Some(count as usize)),
            None => Err(Unread::Number(option, word)),
        },
    }
}

/// A request that names no file.
fn with_no_file<'a>(request: Request) -> Asked<'a> {
    Asked {
        request,
        style: Style::Plain,
        protocols: None,
        unseen: NOTHING_UNSEEN,
        first: None,
        second: None,
        save: None,
    }
}

/// The first of the names that begins with a dash, as no file's name may but that of standard
/// input, into which no session is saved.
fn no_file<'a>(
    first: Option<&'a str>,
    second: Option<&'a str>,
    save: Option<&'a str>,
) -> Option<&'a str> {
    match (first, second, save) {
        (Some(name), _, _) if name != STANDARD && begins_with_dash(name) => Some(name),
        (_, Some(name), _) if name != STANDARD && begins_with_dash(name) => Some(name),
        (_, _, Some(name)) if begins_with_dash(name) => Some(name),
        _ => None,
    }
}

/// Whether a word begins with a dash, as options do.
pub(crate) fn begins_with_dash(word: &str) -> bool {
    word.as_bytes().starts_with(b"-")
}
