//! A listener that keeps what is found of a record.
use crate::check_error::CheckError;
use crate::judged::Judged;
use crate::listener::Listener;
use crate::note::Note;

/// What is found of a record, in the order in which it is found. As a listener it keeps what it is
/// given.
#[derive(Drop)]
pub struct Keeper {
    pub judged: Vec<Judged>,
    pub notes: Vec<Note>,
}

impl Listener for Keeper {
    ghost use Rattle.std.specs.Prelude.{Some};

    ghost judged = { λ k. Some k.judged.items };

    ghost noted = { λ k. Some k.notes.items };

    fn at_line(&mut self, _text: &[u8]) {}

    fn found(&mut self, one: &Judged, _unless: Option<u32>) -> Result<(), CheckError> {
        match self.judged.push(one.copy()) {
            Ok(()) => Ok(()),
            Err(_) => Err(CheckError::Memory),
        }
    }

    fn left_out(&mut self, note: &Note) -> Result<(), CheckError> {
        match self.notes.push(*note) {
            Ok(()) => Ok(()),
            Err(_) => Err(CheckError::Memory),
        }
    }
}
