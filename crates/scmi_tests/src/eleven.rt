//! A channel that has the eleven methods of the trait alone.

use scmi_codec::{Answer, Frame, Message};
use scmi_link::{
    Channel, CloseError, Closing, Collected, LinkError, PostError, RingCallee, RingCaller,
    RingChannel,
};
use std::alloc::Global;

/// Rings, of which the methods with a body of the trait's own are not written again.
#[derive(Drop)]
pub struct Eleven {
    rings: RingChannel,
}

impl Channel for Eleven {
    type Caller = RingCaller;

    type Callee = RingCallee;

    type Rest = ();

    ghost use Rattle.scmi_link.specs.RingChannel.{ring_identity};
    ghost use Rattle.scmi_link.specs.RingCaller.{ring_caller_view, ring_caller_identity, ring_close_shows, ring_caller_steps};
    ghost use Rattle.scmi_link.specs.RingCallee.{ring_callee_view, ring_callee_identity, ring_callee_steps};
    ghost use Rattle.std.specs.Prelude.{true};

    ghost FULL = { true };

    const FULL: bool = true;

    ghost identity = { λ channel. ring_identity channel.rings };

    ghost caller_identity = { ring_caller_identity };

    ghost callee_identity = { ring_callee_identity };

    ghost caller_view = { ring_caller_view };

    ghost callee_view = { ring_callee_view };

    ghost close_shows = { ring_close_shows };

    ghost caller_steps = { ring_caller_steps };

    ghost callee_steps = { ring_callee_steps };

    fn make(alloc: Global) -> Result<(Eleven, RingCaller, RingCallee), LinkError> {
        let (rings, caller, callee) = RingChannel::make(alloc)?;
        Ok((Eleven { rings }, caller, callee))
    }

    fn post(&self, caller: &mut RingCaller, message: &Message) -> Result<(), PostError> {
        self.rings.post(caller, message)
    }

    fn post_malformed(
        &self,
        caller: &mut RingCaller,
        length: u32,
        header: u32,
    ) -> Result<(), PostError> {
        self.rings.post_malformed(caller, length, header)
    }

    fn outstanding(caller: &RingCaller) -> bool {
        RingChannel::outstanding(caller)
    }

    fn collect(&self, caller: &mut RingCaller) -> Collected {
        self.rings.collect(caller)
    }

    fn take(&self, callee: &mut RingCallee) -> Option<Frame> {
        self.rings.take(callee)
    }

    fn owes(callee: &RingCallee) -> bool {
        RingChannel::owes(callee)
    }

    fn answer(&self, callee: &mut RingCallee, answer: &Answer) {
        self.rings.answer(callee, answer);
    }

    fn close_caller(&self, caller: &mut RingCaller) -> Result<Closing, CloseError> {
        self.rings.close_caller(caller)
    }

    fn close_callee(&self, callee: &mut RingCallee) -> Result<(), CloseError> {
        self.rings.close_callee(callee)
    }

    fn gather(self, caller: RingCaller, callee: RingCallee) {
        let Eleven { rings } = self;
        rings.gather(caller, callee);
    }
}
