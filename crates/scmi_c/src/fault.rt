//! Why hardware refused, as a program in C says it.
ghost use Rattle.std.specs.Prelude.{◌≡◌};
ghost use Rattle.scmi_c.specs.Fault.{fault_said};

use scmi_codec::{Fault, Status};

/// The fault of a status by its number, in two's complement; `None` of a number that is that of no
/// status which says why hardware refused.
pub fn fault_said(number: u32) -> Option<Fault>
    ensures { result ≡ fault_said number }
{
    match Status::of_word(number) {
        Some(status) => Fault::of_status(status),
        None => None,
    }
}
