//! What the flags of a rate set ask for.
ghost use Rattle.std.specs.Prelude.{◌≡◌};
ghost use Rattle.scmi_clock.specs.SetFlags.{set_flags, rounding_of};

use crate::rounding::Rounding;
use bitflags::Flags;
use scmi_codec::{RateFlags, Status};

/// What the flags of a rate set ask for (DEN0056B, clock management protocol).
#[derive(Clone, Copy)]
pub(crate) struct SetFlags {
    pub rounding: Rounding,
    pub asynchronous: bool,
    /// Whether a delayed response is wanted; read only of an asynchronous set.
    pub response_wanted: bool,
}

impl SetFlags {
    /// What a word of flags asks for; INVALID_PARAMETERS if any of bits 31 to 4 is set (own).
    pub(crate) fn read(word: u32) -> Result<SetFlags, Status>
        ensures { result ≡ set_flags word }
    {
        match RateFlags::from_bits(word) {
            Some(flags) => Ok(SetFlags {
                rounding: rounding_of(flags),
                asynchronous: flags.contains(RateFlags::ASYNCHRONOUS),
                response_wanted: !flags.contains(RateFlags::NO_DELAYED_RESPONSE),
            }),
            None => Err(Status::InvalidParameters),
        }
    }
}

/// The platform's choice is the nearest rate (own), and overrides rounding up.
fn rounding_of(flags: RateFlags) -> Rounding
    ensures { result ≡ rounding_of flags.0 }
{
    if flags.contains(RateFlags::ROUND_NEAREST) {
        Rounding::Nearest
    } else if flags.contains(RateFlags::ROUND_UP) {
        Rounding::Up
    } else {
        Rounding::Down
    }
}
