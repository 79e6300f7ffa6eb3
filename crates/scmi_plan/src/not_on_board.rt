//! What a board lacks.

use thiserror::Error;

/// What `Plan::keep` or `Plan::deny` named, and the board has not (own).
#[derive(Clone, Copy, PartialEq, Eq, Debug, Error)]
pub enum NotOnBoard {
    /// No such agent.
    #[error("agents are numbered from 1 to the number of the board's agents")]
    Agent,
    /// No such device.
    #[error("devices are numbered from 0 to one less than the board has")]
    Device,
    /// No such power domain or clock.
    #[error("domains and clocks are numbered from 0 to one less than the board has")]
    Resource,
}
