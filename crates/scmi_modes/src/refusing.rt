//! Hardware that refuses each change.
ghost use Rattle.std.specs.Prelude.{true};
ghost use Rattle.scmi_modes.specs.Refusing.{IsAllRefusedWith};

use scmi_codec::Fault;
use scmi_core::{Effect, Hardware};

/// Hardware that refuses each change with this fault, which its contract shows.
#[derive(Clone, Copy)]
pub(crate) struct Refusing {
    pub(crate) fault: Fault,
}

impl Hardware for Refusing {
    ghost REFUSES = { true };

    ghost asked = { λ hardware. IsAllRefusedWith hardware.fault };

    #[tactic(auto, using(crate::proofs::Refused::refuses_more))]
    fn apply(&mut self, _effect: Effect) -> Result<(), Fault> {
        Err(self.fault)
    }
}
