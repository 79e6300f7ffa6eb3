//! What is reported on standard error of how areas are read.

use scmi_decode::{Reading, Readings};
use std::io::Eprint;

/// Reports how the areas of an input of this name are read.
#[derive(Drop)]
pub struct ReadAs<'a, T: Eprint> {
    pub rt: &'a T,
    pub name: &'a str,
}

impl<T: Eprint> Readings for ReadAs<'_, T> {
    fn note(&mut self, line: usize, reading: Reading) {
        let rt = self.rt;
        let name = self.name;
        let text = reading.text();
        let _ = eprintln!(rt; "{name}:{line}: format: {text}");
    }
}
