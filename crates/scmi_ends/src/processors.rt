//! How many processors the threads of a run have.

use std::thread::{Threads, available_parallelism};

/// How many processors the threads of a run have (own).
#[derive(Clone, Copy, PartialEq, Eq, Debug)]
pub enum Processors {
    /// They take turns on one.
    One,
    /// They may run at the same time.
    Several,
}

impl Processors {
    /// Those on which this thread may run; `Several` if the system does not say.
    pub fn allowed<R: Threads>(rt: &R) -> Processors {
        match available_parallelism(rt) {
            Ok(count) if count.get() == 1 => Processors::One,
            _ => Processors::Several,
        }
    }
}
