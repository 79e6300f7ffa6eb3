//! Hardware that is switched as the history requires.
ghost use Rattle.std.specs.Prelude.{◌≡◌, ◌≢◌, ⊤, Bool, List, Ok, false, None, Some, OnOk, OnErr, IfErr, option_map};
ghost use Rattle.scmi_core.specs.Asked.{Asked, IsAsked, Made, Refused};

use scmi_codec::Fault;
use scmi_plan::Effect;

/// The power domains and clocks of a board, as a driver switches them. Contracts see whether it may
/// refuse a change at all, and what it may have been asked for, in order, each change made or
/// refused: of a driver that keeps a list, that list alone. `Listed` keeps it of any driver.
pub trait Hardware {
    ghost REFUSES: { Bool };

    ghost asked: { Self → List Asked → Type 0 };

    /// Makes a change; if the hardware refuses it, nothing is changed, and the fault says with
    /// which status. A driver that does not know what a fault left brings the hardware back to the
    /// value that it had, which the platform's readers give, before it refuses: from then on
    /// replies report that value. If it can't, what the hardware has then is to be reported
    /// (`Platform::report`).
    fn apply(&mut self, effect: Effect) -> Result<(), Fault>
        ensures ok { OnOk result (IsAsked (asked self.old) (Some (Made effect)) (asked self.new)) }
        ensures err { IfErr result (λ fault.
            IsAsked (asked self.old) (Some (Refused effect fault)) (asked self.new)) }
        ensures refuses { REFUSES ≡ false → result ≡ Ok tt };
}

/// Hardware that takes each change and does nothing, and keeps no list. Beside it a platform does as
/// without hardware.
#[derive(Clone, Copy, PartialEq, Eq, Debug)]
pub struct NoHardware;

impl Hardware for NoHardware {
    ghost REFUSES = { false };

    ghost asked = { λ hardware asks. ⊤ };

    fn apply(&mut self, _effect: Effect) -> Result<(), Fault> {
        Ok(())
    }
}

/// Makes a change, if there is one; the fault if the hardware refused it.
pub(crate) fn make<H: Hardware>(hardware: &mut H, effect: Option<Effect>) -> Result<(), Fault>
    ensures made { OnOk result
        (IsAsked (H.asked hardware.old) (option_map Made effect) (H.asked hardware.new)) }
    ensures refused { IfErr result (λ fault. IsAsked (H.asked hardware.old)
        (option_map (λ asked. Refused asked fault) effect) (H.asked hardware.new)) }
    ensures some { OnErr result (effect ≢ None) }
    ensures refuses { H.REFUSES ≡ false → result ≡ Ok tt }
{
    match effect {
        Some(effect) => hardware.apply(effect),
        None => Ok(()),
    }
}
