//! Changes of hardware.

/// What one event changes of the hardware. It may be what the hardware has already.
#[derive(Clone, Copy, PartialEq, Eq, Debug)]
pub enum Effect {
    /// A domain's state, as the word that a reply has: 0 is ON, 0x40000000 is OFF.
    State { domain: u32, state: u32 },
    /// A clock's rate in Hz.
    Rate { clock: u32, rate: u64 },
    /// Whether a clock is enabled.
    Enabled { clock: u32, enabled: bool },
}
