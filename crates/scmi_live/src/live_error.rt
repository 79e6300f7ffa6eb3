//! Why a session ends before its input does.
ghost use Rattle.std.specs.Prelude.{◌≡◌};
ghost use Rattle.scmi_live.specs.LiveError.{fault_of_input, status_of};
ghost use Rattle.scmi_live.specs.declared.live_error.LiveError.TheVariants.{Memory};

use scmi_io::InputError;
use std::alloc::AllocError;
use thiserror::Error;

/// Why a session ends before its input does. Its text is what follows the word `fault`.
#[derive(Clone, Copy, Debug, PartialEq, Eq, Error)]
pub enum LiveError {
    /// A line is longer than `INPUT_BYTES`.
    #[error("size")]
    Size,
    /// A read failed, or reads were interrupted too often.
    #[error("read")]
    Read,
    /// Out of memory.
    #[error("memory")]
    Memory,
    /// The output failed.
    #[error("write")]
    Write,
}

impl LiveError {
    /// The exit status of a session that ends in this way: 1 for a failed output, 2 for a rejected
    /// input, 4 when out of memory.
    pub fn status(&self) -> u8
        ensures { result ≡ status_of self.now }
    {
        match self {
            LiveError::Write => 1,
            LiveError::Memory => 4,
            LiveError::Size | LiveError::Read => 2,
        }
    }
}

impl From<InputError> for LiveError {
    ghost from_gives = { λ error fault. fault ≡ fault_of_input error };

    fn from(error: InputError) -> LiveError {
        match error {
            InputError::Size => LiveError::Size,
            InputError::Read => LiveError::Read,
            InputError::Memory => LiveError::Memory,
        }
    }
}

impl From<AllocError> for LiveError {
    ghost from_gives = { λ _ fault. fault ≡ Memory };

    fn from(_error: AllocError) -> LiveError {
        LiveError::Memory
    }
}
