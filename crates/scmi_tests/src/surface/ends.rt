//! The surface of `scmi_ends`.
ghost use Rattle.std.specs.Prelude.{◌≡◌, [], true};
ghost use Rattle.scmi_ends.specs.AgentView.{IsOfLink};

use scmi_codec::{Frame, Message, Payload};
use scmi_core::{Core, CoreError, Trace};
use scmi_ends::{AgentEnd, Controller, Flushed, Link, ServeError, Served, ShutError, connect};
use scmi_link::{Channel, CloseError, Closing, Collected, PostError};
use scmi_plan::Report;
use std::alloc::Global;
use std::sync::Wait;

/// The two sides of a board.
type Sides<C> = (Controller<C>, Vec<Link<C>>, Vec<AgentEnd<C>>);

fn call_an_agent<C: Channel, R: Wait>(
    rt: &R,
    end: &mut AgentEnd<C>,
    link: &Link<C>,
    message: &Message,
    payload: &Payload,
)
    requires { IsOfLink (C.identity link.now.a2p) (C.identity link.now.p2a) end.old }
{
    let _id: u32 = end.id();
    let _token: Result<u16, PostError> = end.call(link, 0x10, 0x0, payload);
    let _posted: Result<(), PostError> = end.post(link, message);
    let _posted: Result<(), PostError> = end.post_malformed(link, 5, 0x4000);
    let _collected: Collected = end.collect(link);
    let _message: Option<Frame> = end.next_p2a(link);
    let _reply: Collected = end.wait_reply(rt, link, 1_000_000);
    let _closing: Result<Closing, CloseError> = end.close(link);
}

fn call_the_platform<C: Channel>(alloc: Global, core: Core) -> Option<Trace>
    requires { core.history ≡ [] }
{
    let connected: Result<Sides<C>, Core> = connect(alloc, core);
    let Ok((mut platform, links, ends)) = connected else {
        return None;
    };
    let _served: Result<Served, ServeError> = platform.serve(&links, 1);
    let _taken: Result<bool, CoreError> = platform.tell(Report::First(0));
    let _advanced: Result<bool, ServeError> = platform.advance();
    let _flushed: Result<Flushed, ServeError> = platform.flush(&links, 1);
    let _closed: Result<(), ShutError> = platform.close(&links, 1);
    Some(platform.retire(links, ends))
}

/// A link by all its fields.
fn rebuilt<C: Channel>(link: Link<C>) -> Link<C> {
    let Link { a2p, p2a } = link;
    Link { a2p, p2a }
}

fn name_the_variants(served: Served, flushed: Flushed) -> [u8; 2] {
    let served = match served {
        Served::Nothing => 1,
        Served::Done => 2,
    };
    let flushed = match flushed {
        Flushed::Nothing => 1,
        Flushed::Waiting => 2,
        Flushed::Posted => 3,
        Flushed::Closed => 4,
    };
    [served, flushed]
}

/// Errors have the numbers of their order.
fn are_numbered(serve: ServeError, shut: ShutError) -> bool
    ensures { result ≡ true }
{
    let number_of_serve = match serve {
        ServeError::Memory => 1,
        ServeError::NoAgent => 2,
    };
    let number_of_shut = match shut {
        ShutError::InService => 1,
        ShutError::ReplyWaiting => 2,
        ShutError::NoAgent => 3,
    };
    serve as u8 == number_of_serve && shut as u8 == number_of_shut
}
