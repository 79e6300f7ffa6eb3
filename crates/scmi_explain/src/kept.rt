//! A reader whose first bytes are kept, so that a fault can be explained.
ghost use Rattle.std.specs.Prelude.{◌≡◌};

use scmi_io::INPUT_BYTES;
use std::alloc::Global;
use std::io::{Error, Read, Result};
use std::marker::Model;

/// A reader of which the first `INPUT_BYTES` bytes are kept, and the last error. A contract sees what
/// the reader will give. When out of memory, nothing more is kept.
#[derive(Drop)]
pub struct Kept<R: Read + Drop> {
    reader: R,
    bytes: Vec<u8>,
    is_whole: bool,
    error: Option<Error>,
}

impl<R: Read + Drop> Model for Kept<R> {
    ghost use Rattle.std.specs.Prelude.{ℕ, List, Option};

    ghost Value = { Option (List ℕ) };

    ghost view = { λ kept. R.remaining kept.reader };
}

impl<R: Read + Drop> Kept<R> {
    /// A reader of which nothing is kept yet.
    pub fn new(alloc: Global, reader: R) -> Kept<R>
        ensures { result ≡ R.remaining reader }
    {
        Kept {
            reader,
            bytes: Vec::new(alloc),
            is_whole: true,
            error: None,
        }
    }

    /// The bytes that were kept; if there were more, up to before the last line feed among them.
    pub fn bytes(&self) -> &[u8] {
        let bytes = self.bytes.as_slice();
        if self.is_whole {
            return bytes;
        }
        match bytes.iter().rposition(|byte| *byte == b'\n') {
            Some(place) => &bytes[..place],
            None => bytes,
        }
    }

    /// The last error of the reader.
    pub fn error(&self) -> Option<Error> {
        self.error
    }

    /// Keeps bytes if there is room for them.
    fn keep(&mut self, bytes: &[u8])
        ensures { self.new ≡ self.old }
    {
        if !self.is_whole {
            return;
        }
        let room = INPUT_BYTES
            .saturating_sub(self.bytes.len())
            .min(bytes.len());
        let is_kept = self.bytes.extend_from_slice(&bytes[..room]).is_ok();
        self.is_whole = is_kept && room == bytes.len();
    }
}

impl<R: Read + Drop> Read for Kept<R> {
    ghost remaining = { λ kept. kept };

    fn read(&mut self, buffer: &mut [u8]) -> Result<usize> {
        let result = self.reader.read(buffer);
        match result {
            Ok(count) => self.keep(&buffer[..count]),
            Err(error) => self.error = Some(error),
        }
        result
    }
}
