//! What is reported of arguments that are refused, and of files that can't be opened.

use crate::asked::{STANDARD, Unread, begins_with_dash};
use crate::forms::{form_of, forms};
use crate::request::Task;
use clap::Error as ClapError;
use clap::error::ErrorKind;
use scmi_codec::{AREA_BYTES, LEAST_AREA_BYTES};
use scmi_decode::LayoutError;
use scmi_explain::nearest;
use std::alloc::Global;
use std::fs::{self, Files};
use std::io::{Eprint, Error, Read};

/// The exit status after a wrong argument.
pub const WRONG_ARGUMENT: u8 = 64;

/// The exit status if a file can't be opened.
pub const NO_FILE: u8 = 66;

/// Reports on standard error why clap refuses arguments, or that they are a file alone, and gives
/// the exit status.
pub fn refuse<T: Eprint + Files>(rt: &T, alloc: Global, words: &[String], error: &ClapError) -> u8 {
    if let Some((name, task)) = file_alone(rt, words) {
        let word = form_of(task).word;
        let _ = eprintln!(rt; "scmi: '{name}' is a file; did you mean 'scmi {word} {name}'?");
        return WRONG_ARGUMENT;
    }
    let word = first_word(words);
    if error.kind() == ErrorKind::InvalidSubcommand || word == OPTIONS_END {
        return refuse_unread(rt, alloc, Unread::Task(word));
    }
    let _ = eprintln!(rt; "{error}\nFor more information, try 'scmi --help'.");
    WRONG_ARGUMENT
}

/// The word after which none is an option; a command comes before it.
const OPTIONS_END: &str = "--";

/// The first word that is not an option.
fn first_word(words: &[String]) -> &str {
    for word in words {
        let word = word.as_str();
        if word == STANDARD || word == OPTIONS_END || !begins_with_dash(word) {
            return word;
        }
    }
    ""
}

/// Reports on standard error why arguments ask for nothing, and gives the exit status.
pub fn refuse_unread(rt: &impl Eprint, alloc: Global, why: Unread<'_>) -> u8 {
    let _ = match why {
        Unread::Task(word) => return refuse_task(rt, alloc, word),
        Unread::Number(option, word) => eprintln!(rt;
            "scmi: --{option} needs a number of bytes, decimal or 0x..; found '{word}'"
        ),
        Unread::Layout(LayoutError::Size) => eprintln!(rt;
            "scmi: no area has this --size; give a multiple of 4 from {LEAST_AREA_BYTES} to {AREA_BYTES}"
        ),
        Unread::Layout(LayoutError::NoSize) => eprintln!(rt;
            "scmi: --stride needs --size; give the size of each area too"
        ),
        Unread::Layout(LayoutError::Stride) => eprintln!(rt;
            "scmi: --stride is less than --size, so areas would overlap; give at least the size"
        ),
        Unread::Dash(name) => eprintln!(rt;
            "scmi: '{name}' looks like an option; write ./{name} for a file of this name"
        ),
    };
    WRONG_ARGUMENT
}

/// Reports on standard error that this is the word of no task, and gives the exit status.
fn refuse_task(rt: &impl Eprint, alloc: Global, word: &str) -> u8 {
    let _ = match near_command(alloc, word) {
        Some(near) => eprintln!(rt;
            "scmi: no command named '{word}'; did you mean '{near}'? See scmi --help"
        ),
        None => eprintln!(rt; "scmi: no command named '{word}'; see scmi --help"),
    };
    WRONG_ARGUMENT
}

/// The command whose word is near to this one.
fn near_command(alloc: Global, word: &str) -> Option<&'static str> {
    let mut words = Vec::new(alloc);
    for form in forms() {
        words.push(form.word).ok()?;
    }
    nearest(alloc, &words, word)
}

/// Reports on standard error that this task needs the file of its board, and gives the exit status.
pub fn lack_board(rt: &impl Eprint, task: Task) -> u8 {
    let word = form_of(task).word;
    let _ = eprintln!(rt; "scmi: {word} needs the file of its board; see scmi {word} --help");
    WRONG_ARGUMENT
}

/// Reports on standard error that standard input is named for this besides what is read from it,
/// and gives the exit status.
pub fn refuse_standard(rt: &impl Eprint, operand: &str, other: &str) -> u8 {
    let _ = eprintln!(rt;
        "scmi: {other} is read from standard input; {operand} must be a file then"
    );
    WRONG_ARGUMENT
}

/// Reports on standard error that a session can't be saved in the file of its board, and gives the
/// exit status.
pub fn refuse_saved(rt: &impl Eprint, name: &str) -> u8 {
    let _ = eprintln!(rt; "scmi: {name} is the board; the script needs a file of its own");
    WRONG_ARGUMENT
}

/// Reports on standard error why a file can't be opened, and gives the exit status.
pub fn refuse_file(rt: &impl Eprint, name: &str, error: &Error) -> u8 {
    let _ = eprintln!(rt; "scmi: {name} can't be opened: {error}");
    NO_FILE
}

/// The only word, if it looks like a file and can be opened, and the task that takes such a file.
fn file_alone<'w, T: Files>(rt: &T, words: &'w [String]) -> Option<(&'w str, Task)> {
    let [only] = words else {
        return None;
    };
    let name = only.as_str();
    if !name.contains('/') && !name.contains('.') {
        return None;
    }
    let mut file = fs::open(rt, name).ok()?;
    if begins_as_board(&mut file) {
        Some((name, Task::Session))
    } else {
        Some((name, Task::Run))
    }
}

/// What the text of a board begins with.
pub(crate) const BOARD_START: &[u8] = b"board ";

/// Whether what is left of a reader begins as a board, by one read.
pub(crate) fn begins_as_board<R: Read>(reader: &mut R) -> bool {
    let mut start = [0; 6];
    reader.read(&mut start).is_ok() && start.as_slice() == BOARD_START
}
