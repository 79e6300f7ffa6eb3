//! The arguments of the program, as they are read.

use crate::asked::{Asked, STANDARD, Unread, asked_of};
use crate::command::program;
use clap::{ArgMatches, Error};
use std::alloc::Global;

/// Why arguments are refused.
#[derive(Drop)]
pub enum ArgumentError<'a> {
    /// Clap refuses them, or memory ran out.
    Clap(Error),
    /// They ask for nothing.
    Unread(Unread<'a>),
}

/// What the program is asked for by arguments, its own name left out. `-` alone asks for what none
/// do: a run of standard input.
pub fn read_arguments<'a>(
    alloc: Global,
    words: &'a [String],
) -> Result<Asked<'a>, ArgumentError<'a>> {
    let words = match words {
        [only] if only.as_str() == STANDARD => &[],
        _ => words,
    };
    let found = match matches_of(alloc, words) {
        Ok(found) => found,
        Err(error) => return Err(ArgumentError::Clap(error)),
    };
    match asked_of(&found) {
        Ok(asked) => Ok(asked),
        Err(why) => Err(ArgumentError::Unread(why)),
    }
}

/// The matches that clap has of the program's command in these words.
fn matches_of<'a>(alloc: Global, words: &'a [String]) -> Result<ArgMatches<'a>, Error> {
    let command = program(alloc)?;
    command.try_get_matches_from(words)
}
