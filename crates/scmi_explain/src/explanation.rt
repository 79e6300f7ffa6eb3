//! What is wrong, where, and why.
ghost use Rattle.std.specs.Prelude.{◌≡◌};

use crate::fit::MISSING;
use crate::piece::write_quoted;
use crate::sentence::{Sentence, Slip};
use std::fmt;

/// What is wrong with an input, where, and the slip that probably caused it.
#[derive(Clone, Copy)]
pub struct Explanation<'a> {
    /// The line that is wrong, from 1; `None` if it is no single line.
    pub line: Option<u32>,
    pub(crate) what: What<'a>,
    pub(crate) slip: Option<Slip>,
}

/// What is wrong.
#[derive(Clone, Copy)]
pub(crate) enum What<'a> {
    Said(Sentence<'a>),
    Item(ItemFault<'a>),
}

/// What is wrong, and the slip that is likely.
pub(crate) type Cause<'a> = (What<'a>, Option<Slip>);

/// The item of a line that is wrong.
#[derive(Clone, Copy)]
pub(crate) struct ItemFault<'a> {
    /// Its number in the line, from 1.
    pub number: u32,
    pub item: &'a [u8],
    /// What is wrong with it.
    pub wrong: Sentence<'static>,
    /// The form of the line.
    pub form: &'static str,
}

/// What is wrong with a line, or with the input.
pub(crate) fn at<'a>(line: Option<u32>, cause: Cause<'a>) -> Explanation<'a>
    ensures { result.line ≡ line }
{
    let (what, slip) = cause;
    Explanation { line, what, slip }
}

/// What is wrong, if no slip is known.
pub(crate) fn said<'a>(sentence: Sentence<'a>) -> Cause<'a> {
    (What::Said(sentence), None)
}

/// The same, of a text without holes.
pub(crate) fn plain<'a>(text: &'static str) -> Cause<'a> {
    said(Sentence::of(text))
}

/// The text after the name of the input: `:LINE: what; slip`.
impl fmt::Display for Explanation<'_> {
    fn fmt<W: fmt::Write>(&self, f: &mut fmt::Formatter<W>) -> fmt::Result {
        if let Some(line) = self.line {
            write!(f, ":{line}")?;
        }
        write!(f, ": {}", self.what)?;
        match self.slip {
            Some(slip) => write!(f, "; {slip}"),
            None => Ok(()),
        }
    }
}

impl fmt::Display for What<'_> {
    fn fmt<W: fmt::Write>(&self, f: &mut fmt::Formatter<W>) -> fmt::Result {
        match self {
            What::Said(sentence) => write!(f, "{sentence}"),
            What::Item(fault) => write!(f, "{fault}"),
        }
    }
}

impl fmt::Display for ItemFault<'_> {
    fn fmt<W: fmt::Write>(&self, f: &mut fmt::Formatter<W>) -> fmt::Result {
        write!(f, "field {}", self.number)?;
        if self.wrong.text != MISSING {
            f.write_str(": ")?;
            write_quoted(f, self.item)?;
        }
        write!(f, " {}; expected {}", self.wrong, self.form)
    }
}
