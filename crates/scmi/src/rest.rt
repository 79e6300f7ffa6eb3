//! What is left of an input whose first line was read.
ghost use Rattle.std.specs.Prelude.{◌≡◌};

use scmi_io::{CountedRead, CountedReader, Input, ReadError};
use std::io::{Error, ErrorKind, Read, Result};

/// What is left of an input whose first line was read, as a reader.
#[derive(Drop)]
pub struct Rest<'a, R: Read> {
    pub input: Input<CountedReader<'a, R>>,
}

impl<'a, R: Read> Read for Rest<'a, R> {
    ghost remaining = { λ rest. rest.input.left };

    fn read(&mut self, buffer: &mut [u8]) -> Result<usize> {
        match self.input.read(buffer) {
            Ok(count) => Ok(count),
            Err(ReadError::Interrupted) => Err(Error::from(ErrorKind::Interrupted)),
            Err(ReadError::Failed) => Err(Error::from(ErrorKind::Other)),
        }
    }
}
