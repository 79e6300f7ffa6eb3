//! Why an input is not decoded.
ghost use Rattle.std.specs.Prelude.{◌≡◌, ◌≢◌};
ghost use Rattle.scmi_decode.specs.DecodeError.{fault_of_input, status_of};
ghost use Rattle.scmi_decode.specs.declared.decode_error.DecodeError.TheVariants.{Memory};

use scmi_io::InputError;
use std::alloc::AllocError;
use thiserror::Error;

/// Why an input is not decoded. Its text is what follows the word `fault`.
#[derive(Clone, Copy, Debug, Error)]
pub enum DecodeError {
    /// A line is longer than `INPUT_BYTES`.
    #[error("size")]
    Size,
    /// A read failed, or reads were interrupted too often.
    #[error("read")]
    Read,
    /// Out of memory.
    #[error("memory")]
    Memory,
    /// The output failed.
    #[error("write")]
    Write,
    /// No line was an area.
    #[error("area")]
    NoArea,
}

impl DecodeError {
    /// The exit status of a run that ends so: 1 for a failed output, 2 for a refused input, 4 when
    /// out of memory.
    pub fn status(&self) -> u8
        ensures status { result ≡ status_of self.now }
        ensures not_done { result ≢ 0 }
    {
        match self {
            DecodeError::Write => 1,
            DecodeError::Memory => 4,
            DecodeError::Size | DecodeError::Read | DecodeError::NoArea => 2,
        }
    }
}

impl From<InputError> for DecodeError {
    ghost from_gives = { λ error fault. fault ≡ fault_of_input error };

    fn from(error: InputError) -> DecodeError {
        match error {
            InputError::Size => DecodeError::Size,
            InputError::Read => DecodeError::Read,
            InputError::Memory => DecodeError::Memory,
        }
    }
}

impl From<AllocError> for DecodeError {
    ghost from_gives = { λ _ fault. fault ≡ Memory };

    fn from(_error: AllocError) -> DecodeError {
        DecodeError::Memory
    }
}
