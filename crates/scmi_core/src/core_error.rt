//! Why the controller refused a call.
ghost use Rattle.std.specs.Prelude.{◌≡◌};
ghost use Rattle.scmi_core.specs.declared.core_error.CoreError.TheVariants.{Memory};

use std::alloc::AllocError;
use thiserror::Error;

/// Why a call of `Core` was refused. A refused call changed nothing. If several apply, the one that
/// comes first in `NoAgent`, `NoResource`, `NoState`, `Nothing`, `Memory` is returned (own).
#[derive(Clone, Copy, PartialEq, Eq, Debug, Error)]
pub enum CoreError {
    /// A growth of the trace was refused.
    #[error("out of memory")]
    Memory = 1,
    /// The number is no agent's: 0, which is the platform, or above the number of agents.
    #[error("the board has no such agent")]
    NoAgent = 2,
    /// The agent's outbox is empty.
    #[error("the agent's outbox is empty")]
    Nothing = 3,
    /// The number of a report is no domain's or no clock's of the board.
    #[error("the board has no such domain or clock")]
    NoResource = 4,
    /// The state that a report gives a domain is neither ON nor OFF.
    #[error("the state is neither on nor off")]
    NoState = 5,
}

impl From<AllocError> for CoreError {
    ghost from_gives = { λ _ e. e ≡ Memory };

    fn from(_error: AllocError) -> CoreError {
        CoreError::Memory
    }
}
