//! The lines of an input, with their numbers.
ghost use Rattle.std.specs.Prelude.{◌≡◌, ◌<◌, ◌∷◌, length, OnOk, IfErr, OnSome, IfSome, MatchOption, ⊤, true, [], Some, None};
ghost use Rattle.scmi_board.specs.Lines.{first_number_in, is_significant, last_number, line_of, lines_left, lines_of, number_behind, whole};

use crate::line_after::LineAfter;
use crate::places::{behind_first, first_place};
use std::marker::Model;

/// A line that is neither empty nor begins with `#`.
#[derive(Clone, Copy, Debug, PartialEq, Eq)]
pub struct TextLine<'a> {
    /// Its number in the whole input, from 1.
    pub number: u32,
    /// Its bytes without the line feed.
    pub text: &'a [u8],
}

/// What is left of an input after its first line, which is the mode, or of a text that has none. A
/// contract sees the bytes that are left and the number of the line that was read last.
#[derive(Drop)]
pub struct Lines<'a> {
    rest: &'a [u8],
    // The number of the line that was read last, whatever it was.
    number: u32,
}

impl<'a> Model for Lines<'a> {
    ghost use Rattle.scmi_board.specs.Lines.{LinesView};

    ghost Value = { LinesView };

    ghost view = { λ lines. record { rest = lines.rest.now; number = lines.number } };
}

impl<'a> Lines<'a> {
    /// The lines of the input after the first line. They are numbered from 2.
    pub fn new(input: &'a [u8]) -> Lines<'a>
        ensures rest { result.rest ≡ input.now }
        ensures number { result.number ≡ 1 }
    {
        Lines {
            rest: input,
            number: 1,
        }
    }

    /// The lines of a text that has no mode. They are numbered from 1.
    pub fn of_text(text: &'a [u8]) -> Lines<'a>
        ensures { result ≡ whole text.now }
    {
        Lines {
            rest: text,
            number: 0,
        }
    }

    /// The number of the line that was read last, whether it is skipped or not; once no line is
    /// left, of the last line of the input, and 1 if there is none after the first.
    pub fn last_number(&self) -> u32
        ensures { result ≡ self.now.number }
    {
        self.number
    }

    /// The next line that is neither empty nor begins with `#` (own). The other lines are counted.
    pub fn next_line(&mut self) -> Option<TextLine<'a>>
        ensures smaller { OnSome result (length self.new.rest < length self.old.rest) }
        ensures number { IfSome result (λ line. line.number ≡ self.new.number) }
        ensures counts { IfSome result (λ line. is_significant line.text.now ≡ true) }
        ensures lines { MatchOption result (lines_left self.old ≡ [])
            (λ line. lines_left self.old ≡ line_of line ∷ lines_left self.new) }
        ensures last { last_number self.new ≡ last_number self.old }
        ensures end { MatchOption result (self.new.rest ≡ []) (λ _. ⊤) }
    {
        while let Some(text) = self.cut() {
            if is_significant(text) {
                return Some(TextLine {
                    number: self.number,
                    text,
                });
            }
        }
        None
    }

    /// `LineAfter` if a line is left that is neither empty nor begins with `#`: the first of these.
    pub fn finish(&mut self) -> Result<(), LineAfter>
        ensures ok { OnOk result (first_number_in (lines_left self.old) ≡ None) }
        ensures err { IfErr result (λ after.
            first_number_in (lines_left self.old) ≡ Some after.number) }
    {
        match self.next_line() {
            Some(line) => Err(LineAfter {
                number: line.number,
            }),
            None => Ok(()),
        }
    }

    /// The next line of any kind.
    fn cut(&mut self) -> Option<&'a [u8]>
        ensures smaller { OnSome result (length self.new.rest < length self.old.rest) }
        ensures lines { MatchOption result ((self.old.rest ≡ []) × (self.new ≡ self.old))
            (λ text. lines_of self.old.rest ≡ text.now ∷ lines_of self.new.rest) }
        ensures number { OnSome result (self.new.number ≡ number_behind self.old.number) }
    {
        if self.rest.is_empty() {
            return None;
        }
        let rest = self.rest;
        self.number = self.number.saturating_add(1);
        let (text, behind) = rest.split_at(first_place(rest, b'\n'));
        self.rest = behind_first(behind);
        Some(text)
    }
}

/// Whether a line counts: it is neither empty nor begins with `#` (own).
pub fn is_significant(text: &[u8]) -> bool
    ensures { result ≡ is_significant text.now }
{
    !text.is_empty() && text[0] != b'#'
}
