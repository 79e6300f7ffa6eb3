//! The states of a power domain.
ghost use Rattle.std.specs.Prelude.{◌≡◌, if◌then◌else◌, Ok, Err};
ghost use Rattle.scmi_codec.specs.declared.status.Status.TheVariants.{InvalidParameters};
ghost use Rattle.scmi_power.specs.PowerReply.{is_state};
ghost use Rattle.scmi_power.specs.PowerTable.{starting_state};

use scmi_codec::Status;
use scmi_plan::Domain;

/// The state word of a domain that is ON.
pub(crate) const ON: u32 = 0x0000_0000;

/// The state word of a domain that is OFF.
pub(crate) const OFF: u32 = 0x4000_0000;

/// The state of a domain at the start.
pub(crate) fn starting_state(row: &Domain) -> u32
    ensures { result ≡ starting_state row.now }
{
    if row.on { ON } else { OFF }
}

/// INVALID_PARAMETERS if a word is not a state.
pub(crate) fn check_state(state: u32) -> Result<(), Status>
    ensures { result ≡ (if is_state state then Ok tt else Err InvalidParameters) }
{
    match state {
        ON | OFF => Ok(()),
        _ => Err(Status::InvalidParameters),
    }
}
