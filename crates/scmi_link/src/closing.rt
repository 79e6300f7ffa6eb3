//! What a caller's close found.

/// What a caller's close found.
#[derive(Clone, Copy, PartialEq, Eq, Debug)]
pub enum Closing {
    /// Nothing was outstanding, or the endpoint is closed already.
    Idle,
    /// The outstanding frame was not taken and never will be.
    Withdrawn,
}
