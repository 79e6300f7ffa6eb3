//! The surface of `scmi_link`.
ghost use Rattle.std.specs.Prelude.{◌≡◌, true};

use scmi_codec::{Answer, Frame, Message};
use scmi_link::{
    Channel, CloseError, Closing, Collected, LinkError, PostError, RingCallee, RingCaller,
    RingChannel,
};
use std::alloc::Global;

type Ends = (RingChannel, RingCaller, RingCallee);

fn name_the_calls() {
    let _: fn(Global) -> Result<Ends, LinkError> = RingChannel::make;
    let _: fn(&RingChannel, &mut RingCaller, &Message) -> Result<(), PostError> = RingChannel::post;
    let _: fn(&RingChannel, &mut RingCaller, u32, u32) -> Result<(), PostError> =
        RingChannel::post_malformed;
    let _: fn(&RingCaller) -> bool = RingChannel::outstanding;
    let _: fn(&RingChannel, &mut RingCaller) -> Collected = RingChannel::collect;
    let _: fn(&RingChannel, &mut RingCallee) -> Option<Frame> = RingChannel::take;
    let _: fn(&RingCallee) -> bool = RingChannel::owes;
    let _: fn(&RingChannel, &mut RingCallee, &Answer) = RingChannel::answer;
    let _: fn(&RingChannel, &mut RingCaller) -> Result<Closing, CloseError> =
        RingChannel::close_caller;
    let _: fn(&RingChannel, &mut RingCallee) -> Result<(), CloseError> = RingChannel::close_callee;
    let _: fn(RingChannel, RingCaller, RingCallee) = RingChannel::gather;
}

/// A channel of any kind is shared, its endpoints are sent, and all may be dropped.
fn name_the_bounds<C: Channel>() {
    is_shared::<C>();
    is_sent::<C::Caller>();
    is_sent::<C::Callee>();
    is_dropped::<C::Rest>();
}

/// Rings may be full, and leave nothing.
fn name_the_members<C: Channel<Caller = RingCaller, Callee = RingCallee, Rest = ()>>() -> bool {
    C::FULL
}

fn is_shared<T: Sync + Drop>() {}

fn is_sent<T: Send + Drop>() {}

fn is_dropped<T: Drop>() {}

fn name_the_variants(collected: &Collected, closing: Closing) -> [u8; 2] {
    let collected = match collected {
        Collected::Nothing => 1,
        Collected::Got(_answer) => 2,
        Collected::Closed => 3,
    };
    let closing = match closing {
        Closing::Idle => 1,
        Closing::Withdrawn => 2,
    };
    [collected, closing]
}

/// Errors have the numbers of their order.
fn are_numbered(link: LinkError, post: PostError, close: CloseError) -> bool
    ensures { result ≡ true }
{
    let LinkError::Memory = link;
    let number_of_post = match post {
        PostError::Outstanding => 1,
        PostError::Closed => 2,
        PostError::Full => 3,
        PostError::WellFormed => 4,
    };
    let number_of_close = match close {
        CloseError::InService => 1,
        CloseError::ReplyWaiting => 2,
    };
    link as u8 == 1 && post as u8 == number_of_post && close as u8 == number_of_close
}
