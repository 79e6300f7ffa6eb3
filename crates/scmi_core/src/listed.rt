//! Hardware beside a list of what it was asked for.
ghost use Rattle.std.specs.Prelude.{◌≡◌, ◌∷◌, ◌++◌, [], false, Ok, Some, OnOk, IfErr};
ghost use Rattle.scmi_plan.specs.Board.{Board};
ghost use Rattle.scmi_core.specs.Asked.{IsAsked, Made, Refused};
ghost use Rattle.scmi_core.specs.Driven.{HasMade, IsDriven};
ghost use Rattle.scmi_core.specs.Standing.{Standing, StandsAfter};

use crate::hardware::Hardware;
use crate::said::{Said, Saying};
use scmi_codec::Fault;
use scmi_plan::Effect;

/// Hardware beside the list of what it was asked for, in order, each change made or refused.
/// Contracts alone see the list, and it takes no byte. A platform beside it keeps the promises
/// beside a driver that keeps a list, whatever that of the hardware is.
#[derive(Drop)]
pub struct Listed<H> {
    pub hardware: H,
    pub said: Said,
}

impl<H: Hardware> Listed<H> {
    /// Hardware of which the list begins here.
    #[tactic(auto, unfolding(crate::specs::Driven::asks))]
    pub fn new(hardware: H) -> Listed<H>
        ensures hardware { result.hardware ≡ hardware }
        ensures said { result.said.list ≡ [] }
        ensures made { (board : Board)
            → HasMade [] board [] (⟦<Listed<H> as Hardware>⟧.asked result) }
        ensures driven { (p : Standing) → StandsAfter p []
            → IsDriven p (⟦<Listed<H> as Hardware>⟧.asked result) }
    {
        Listed {
            hardware,
            said: Said::nothing(),
        }
    }
}

impl<H: Hardware> Hardware for Listed<H> {
    ghost REFUSES = { H.REFUSES };

    ghost asked = { λ listed asks. listed.said.list ≡ asks };

    fn apply(&mut self, effect: Effect) -> Result<(), Fault>
        ensures ok { OnOk result (self.new.said.list ≡ self.old.said.list ++ Made effect ∷ []) }
        ensures err { IfErr result (λ fault.
            self.new.said.list ≡ self.old.said.list ++ Refused effect fault ∷ []) }
        ensures refuses { H.REFUSES ≡ false → result ≡ Ok tt }
        ensures ok_hardware { OnOk result (IsAsked (H.asked self.old.hardware)
            (Some (Made effect)) (H.asked self.new.hardware)) }
        ensures err_hardware { IfErr result (λ fault. IsAsked (H.asked self.old.hardware)
            (Some (Refused effect fault)) (H.asked self.new.hardware)) }
    {
        let applied = self.hardware.apply(effect);
        let saying = match applied {
            Ok(()) => Saying::Made(effect),
            Err(fault) => Saying::Refused(effect, fault),
        };
        self.said = self.said.and(&saying);
        applied
    }
}
