//! A word of flags of which bit 0 alone has a meaning.
ghost use Rattle.std.specs.Prelude.{◌≡◌};
ghost use Rattle.scmi_codec.specs.Reply.{single_flag};

use crate::status::Status;

/// Whether bit 0 of a word of flags is set; INVALID_PARAMETERS if any other bit is (own).
pub fn single_flag(flags: u32) -> Result<bool, Status>
    ensures { result ≡ single_flag flags }
{
    match flags {
        0 => Ok(false),
        1 => Ok(true),
        _ => Err(Status::InvalidParameters),
    }
}
