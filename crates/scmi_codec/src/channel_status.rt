//! The status word of a channel.

use bitflags::{Flag, Flags, bitflag_items};

/// The channel status (DEN0056B, shared memory transport): bit 0 free, bit 1 error. On reading,
/// only bit 0 decides (own).
#[derive(Clone, Copy, PartialEq, Eq, Debug)]
pub struct ChannelStatus(u32);

bitflag_items! {
    impl ChannelStatus: u32 {
        const FREE = 1;
        const ERROR = 2;
    }
}

impl Flags for ChannelStatus {
    ghost use Rattle.std.specs.Prelude.{⊤, [], ◌∷◌, codes};

    type Bits = u32;

    ghost exact = { ⊤ };

    ghost table = { (codes "FREE", 1) ∷ (codes "ERROR", 2) ∷ [] };

    ghost set_of = { λ s. s.0 };

    fn flags<'a>() -> &'a [Flag<ChannelStatus>] {
        ChannelStatus::FLAGS
    }

    fn bits(&self) -> u32 {
        self.0
    }

    fn from_bits_retain(bits: u32) -> ChannelStatus {
        ChannelStatus(bits)
    }
}
