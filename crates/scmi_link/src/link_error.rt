//! Why a channel was not made.
use thiserror::Error;

/// Why no channel was made.
#[derive(Clone, Copy, PartialEq, Eq, Debug, Error)]
pub enum LinkError {
    #[error("no memory for a channel")]
    Memory = 1,
}
