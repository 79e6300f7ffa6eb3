//! Why an input is not read.
use thiserror::Error;

/// Why an input is not read.
#[derive(Clone, Copy, Debug, PartialEq, Eq, Error)]
pub enum InputError {
    /// The first line, or what follows it, is longer than `INPUT_BYTES`.
    #[error("size")]
    Size,
    /// A read failed, or reads were interrupted too often.
    #[error("read")]
    Read,
    /// Out of memory.
    #[error("memory")]
    Memory,
}
