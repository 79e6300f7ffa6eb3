//! The flags of a clock's rate set.

use bitflags::{Flag, Flags, bitflag_items};

/// The flags of a rate set (DEN0056B, clock management protocol): bit 0 asynchronous; bit 1 no
/// delayed response wanted, read only with bit 0; bit 2 round up; bit 3 the platform chooses, the
/// nearest rate (own), and overrides bit 2.
#[derive(Clone, Copy, PartialEq, Eq, Debug)]
pub struct RateFlags(u32);

bitflag_items! {
    impl RateFlags: u32 {
        const ASYNCHRONOUS = 1;
        const NO_DELAYED_RESPONSE = 2;
        const ROUND_UP = 4;
        const ROUND_NEAREST = 8;
    }
}

impl Flags for RateFlags {
    ghost use Rattle.std.specs.Prelude.{⊤, [], ◌∷◌, codes};

    type Bits = u32;

    ghost exact = { ⊤ };

    ghost table = { (codes "ASYNCHRONOUS", 1) ∷ (codes "NO_DELAYED_RESPONSE", 2) ∷ (codes "ROUND_UP", 4) ∷ (codes "ROUND_NEAREST", 8) ∷ [] };

    ghost set_of = { λ s. s.0 };

    fn flags<'a>() -> &'a [Flag<RateFlags>] {
        RateFlags::FLAGS
    }

    fn bits(&self) -> u32 {
        self.0
    }

    fn from_bits_retain(bits: u32) -> RateFlags {
        RateFlags(bits)
    }
}
