//! The callee's endpoint of a ring channel.
ghost use Rattle.scmi_link.specs.CalleeRings.{IsCalleeOf};

use crate::callee_rings::CalleeRings;
use boxcar::tag::Tag;

/// The endpoint of a `RingChannel` that takes frames and answers them.
#[derive(Drop)]
pub struct RingCallee {
    // The identity of the channel that made this endpoint. It has no bytes.
    pub(crate) identity: Tag,
    pub(crate) rings: CalleeRings,
    ghost identified: { ∥ IsCalleeOf identity.numbers rings ∥₁ },
}
