//! Why a read gives nothing.

/// Why a read gives nothing.
#[derive(Clone, Copy, Debug, PartialEq, Eq)]
pub enum ReadError {
    /// It was interrupted before it began, and may be tried again.
    Interrupted,
    /// It failed.
    Failed,
}
