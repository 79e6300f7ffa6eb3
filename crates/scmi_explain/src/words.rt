//! Words of which one is expected.

use crate::forms::Form;
use scmi_codec::{Fault, STATUSES};
use std::fmt;

/// Words that are written one by one, with commas between them and "or" before the last.
#[derive(Drop)]
struct Alternatives {
    /// What stands around each word.
    mark: &'static str,
    /// The last word so far, which is not yet written.
    held: &'static str,
    between: &'static str,
}

impl Alternatives {
    /// None so far, each with this before and behind it.
    fn new(mark: &'static str) -> Alternatives {
        Alternatives {
            mark,
            held: "",
            between: "",
        }
    }

    /// One more.
    fn add<W: fmt::Write>(&mut self, f: &mut fmt::Formatter<W>, word: &'static str) -> fmt::Result {
        if !self.held.is_empty() {
            self.write(f, self.between)?;
            self.between = ", ";
        }
        self.held = word;
        Ok(())
    }

    /// No more.
    fn end<W: fmt::Write>(&self, f: &mut fmt::Formatter<W>) -> fmt::Result {
        self.write(f, if self.between.is_empty() { "" } else { " or " })
    }

    fn write<W: fmt::Write>(
        &self,
        f: &mut fmt::Formatter<W>,
        between: &'static str,
    ) -> fmt::Result {
        write!(f, "{between}{}{}{}", self.mark, self.held, self.mark)
    }
}

/// The statuses by which hardware refuses a change, in a list of their names.
#[derive(Clone, Copy)]
pub struct HardwareStatuses;

impl fmt::Display for HardwareStatuses {
    fn fmt<W: fmt::Write>(&self, f: &mut fmt::Formatter<W>) -> fmt::Result {
        let mut names = Alternatives::new("");
        for row in &STATUSES {
            if Fault::of_status(row.status).is_some() {
                names.add(f, row.name)?;
            }
        }
        names.end(f)
    }
}

/// Writes the words of an item of a form, in quotes.
pub(crate) fn write_either<W: fmt::Write>(
    f: &mut fmt::Formatter<W>,
    item: &'static str,
) -> fmt::Result {
    let mut words = Alternatives::new("\"");
    for word in item.split(is_between_words) {
        words.add(f, word)?;
    }
    words.end(f)
}

/// Whether a character is between the words of an item of a form.
pub(crate) fn is_between_words(letter: char) -> bool {
    letter == '|' || letter == '/'
}

/// Writes the first words of forms of lines, each once, in the order of the forms.
pub(crate) fn write_first_words<W: fmt::Write>(
    f: &mut fmt::Formatter<W>,
    forms: &'static [Form],
) -> fmt::Result {
    let mut words = Alternatives::new("");
    for (place, form) in forms.iter().enumerate() {
        let word = form.word();
        if !forms.iter().take(place).any(|before| before.word() == word) {
            words.add(f, word)?;
        }
    }
    words.end(f)
}
