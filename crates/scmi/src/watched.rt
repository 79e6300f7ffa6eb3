//! A reader that shows how far it is read.
ghost use Rattle.std.specs.Prelude.{◌≡◌};

use std::io::{Eprint, Read, Result};
use std::marker::Model;

/// After how many bytes it is said again.
const STEP_BYTES: u64 = 16 << 20;

/// A reader that says on standard error how far it is read, each 16 MiB, if somebody watches. A
/// contract sees what the reader will give.
#[derive(Drop)]
pub struct Watched<'a, T: Eprint, R: Read + Drop> {
    rt: &'a T,
    name: &'a str,
    reader: R,
    is_watched: bool,
    count: u64,
}

impl<'a, T: Eprint, R: Read + Drop> Model for Watched<'a, T, R> {
    ghost use Rattle.std.specs.Prelude.{ℕ, List, Option};

    ghost Value = { Option (List ℕ) };

    ghost view = { λ watched. R.remaining watched.reader };
}

impl<'a, T: Eprint, R: Read + Drop> Watched<'a, T, R> {
    /// A reader of which nothing is read yet, of an input of this name.
    pub fn new(rt: &'a T, name: &'a str, is_watched: bool, reader: R) -> Watched<'a, T, R>
        ensures { result ≡ R.remaining reader }
    {
        Watched {
            rt,
            name,
            reader,
            is_watched,
            count: 0,
        }
    }

    /// Counts bytes that were read, and says how many there are if that is due.
    fn count_on(&mut self, bytes: usize)
        ensures { self.new ≡ self.old }
    {
        let before = self.count / STEP_BYTES;
        self.count = self.count.saturating_add(bytes as u64);
        if self.is_watched && self.count / STEP_BYTES > before {
            let rt = self.rt;
            let name = self.name;
            let mebibytes = self.count >> 20;
            let _ = eprintln!(rt; "{name}: {mebibytes} MiB are checked");
        }
    }
}

impl<T: Eprint, R: Read + Drop> Read for Watched<'_, T, R> {
    ghost remaining = { λ watched. watched };

    fn read(&mut self, buffer: &mut [u8]) -> Result<usize> {
        let result = self.reader.read(buffer);
        if let Ok(count) = result {
            self.count_on(count);
        }
        result
    }
}
