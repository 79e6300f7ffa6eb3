//! What hardware tells of itself.

use crate::effect::Effect;

/// What the hardware tells the platform without being asked (own).
#[derive(Clone, Copy, PartialEq, Eq, Debug)]
pub enum Report {
    /// It has changed by itself.
    Changed(Effect),
    /// It ends the pending set at this place before the others. Places are counted from 0.
    First(u32),
    /// What it gives this free clock, which has a pending set, is this rate in Hz.
    Settled { clock: u32, rate: u64 },
}
