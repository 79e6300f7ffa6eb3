//! What is notified of how areas are read.

use crate::reading::Reading;

/// What is notified of how areas are read.
pub trait Readings {
    /// The dump of an area that begins at a line of this number, from 1, is read so, and the area before
    /// it is read otherwise, or there is no area before it.
    fn note(&mut self, line: usize, reading: Reading);
}

/// The areas of which it is still to be reported how they are read: at most one of a dump, and one
/// of the line after it.
#[derive(Drop)]
pub(crate) struct Unsaid {
    last: Option<Reading>,
    dump: Option<(usize, Reading)>,
    line: Option<(usize, Reading)>,
}

impl Unsaid {
    /// Nothing was read yet.
    pub(crate) fn new() -> Unsaid {
        Unsaid {
            last: None,
            dump: None,
            line: None,
        }
    }

    /// Takes the reading of a dump of an area that begins at this line.
    pub(crate) fn take_dump(&mut self, line: usize, reading: Reading) {
        self.dump = self.other(line, reading);
    }

    /// Takes the reading of a line that is an area alone.
    pub(crate) fn take_line(&mut self, line: usize, reading: Reading) {
        self.line = self.other(line, reading);
    }

    /// A reading that is another than the last.
    fn other(&mut self, line: usize, reading: Reading) -> Option<(usize, Reading)> {
        if self.last == Some(reading) {
            return None;
        }
        self.last = Some(reading);
        Some((line, reading))
    }

    /// Reports what is not yet reported.
    pub(crate) fn say<N: Readings>(&mut self, readings: &mut N) {
        if let Some((line, reading)) = self.dump {
            readings.note(line, reading);
        }
        if let Some((line, reading)) = self.line {
            readings.note(line, reading);
        }
        self.dump = None;
        self.line = None;
    }
}
