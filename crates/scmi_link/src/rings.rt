//! The two rings of a channel, as they were made.

use crate::envelope::Envelope;
use crate::note::Note;
use boxcar::tag::Names;
use rtrb::Producer;
use std::snapshot::Snapshot;

/// The ring of frames and the ring of answers, as they were made. It has no bytes.
#[derive(Drop)]
pub struct Rings {
    pub(crate) frames: Snapshot<Producer<Box<Envelope>>>,
    pub(crate) answers: Snapshot<Producer<Note>>,
}

/// How a channel of two rings is identified.
pub struct RingIdentities;

impl Names<Rings> for RingIdentities {
    ghost use Rattle.scmi_link.specs.Rings.{rings_identity};

    ghost numbers = { rings_identity };
}
