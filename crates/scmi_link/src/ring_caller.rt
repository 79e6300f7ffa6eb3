//! The caller's endpoint of a ring channel.
ghost use Rattle.scmi_link.specs.CallerRings.{IsCallerOf};

use crate::caller_rings::CallerRings;
use boxcar::tag::Tag;

/// The endpoint of a `RingChannel` that posts frames and collects their answers.
#[derive(Drop)]
pub struct RingCaller {
    // The identity of the channel that made this endpoint. It has no bytes.
    pub(crate) identity: Tag,
    pub(crate) rings: CallerRings,
    ghost identified: { ∥ IsCallerOf identity.numbers rings ∥₁ },
}
