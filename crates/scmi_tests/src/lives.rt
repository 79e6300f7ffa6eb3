//! An agent that restarts: its next life begins once nothing of the life before is outstanding.
ghost use Rattle.std.specs.Prelude.{IfOk};
ghost use Rattle.scmi_ends.specs.AgentView.{IsOfLink};
ghost use Rattle.scmi_ends.specs.Links.{HasLinks};

use crate::boards::plan;
use crate::messages::response;
use scmi_codec::{BASE_PROTOCOL, Payload};
use scmi_core::Core;
use scmi_ends::{AgentEnd, Controller, Link, connect};
use scmi_link::{Channel, Collected, RingChannel};
use scmi_words::WordChannel;
use std::alloc::Global;
use std::sync::Wait;
use std::sync::atomic::{AtomicBool, Ordering};
use std::test::Fail;
use std::thread::{Threads, join, yield_now};

const ROUNDS: u32 = 200;

/// How often each side polls before it gives up.
const TURNS: u32 = 10_000_000;

/// What the two threads report to each other.
#[derive(Drop)]
struct Flags {
    // The agent has lost what it asked for.
    restarts: AtomicBool,
    // It has read the reply of its next life.
    done: AtomicBool,
}

/// Two lives of agent 1 in one thread, beside the platform in another. Gives the reply that the
/// second life read.
fn live_twice<C: Channel, R: Threads + Wait + Sync>(
    rt: &R,
    alloc: Global,
) -> Result<Collected, Fail> {
    let core = Core::new(alloc, plan(alloc)?);
    let Ok((platform, links, mut agents)) = connect::<C>(alloc, core) else {
        return Err(Fail::from("no memory"));
    };
    if agents.is_empty() {
        return Err(Fail::from("no agent"));
    }
    let end = agents.remove(0);
    Ok(run_beside(rt, &links, &links[0], platform, end))
}

/// Serves in one thread while the agent has its lives in another.
fn run_beside<C: Channel, R: Threads + Wait + Sync>(
    rt: &R,
    links: &[Link<C>],
    link: &Link<C>,
    platform: Controller<C>,
    end: AgentEnd<C>,
) -> Collected
    requires links { HasLinks C.identity links.now platform }
    requires link { IsOfLink (C.identity link.now.a2p) (C.identity link.now.p2a) end }
{
    let flags = Flags {
        restarts: AtomicBool::new(false),
        done: AtomicBool::new(false),
    };
    let (_platform, reply) = join(
        rt,
        || -> Controller<C>
            requires { HasLinks C.identity links.now platform }
        { serve_until_done(links, &flags, platform) },
        || -> Collected
            requires { IsOfLink (C.identity link.now.a2p) (C.identity link.now.p2a) end }
        { have_lives(rt, link, &flags, end) },
    );
    reply
}

/// Serves agent 1 until it is done, and ends what it asked for once it restarts.
fn serve_until_done<C: Channel>(
    links: &[Link<C>],
    flags: &Flags,
    mut platform: Controller<C>,
) -> Controller<C>
    requires { HasLinks C.identity links.now platform }
{
    'turns: for _ in 0..TURNS {
        if flags.restarts.swap(false, Ordering::SeqCst) {
            let _ = platform.restart(1);
        }
        let _ = platform.serve(links, 1);
        if flags.done.load(Ordering::SeqCst) {
            break;
        }
        yield_now();
    }
    platform
}

/// The agent asks for the attributes of the base protocol and restarts without the reply; then it
/// asks for the protocol's version. Gives the reply to that.
fn have_lives<C: Channel, R: Wait>(
    rt: &R,
    link: &Link<C>,
    flags: &Flags,
    mut end: AgentEnd<C>,
) -> Collected
    requires { IsOfLink (C.identity link.now.a2p) (C.identity link.now.p2a) end }
{
    let _ = end.call(link, BASE_PROTOCOL, 0x1, &Payload::new());
    flags.restarts.store(true, Ordering::SeqCst);
    let reply = match next_life(link, end) {
        Ok(mut next) => {
            let _ = next.call(link, BASE_PROTOCOL, 0x0, &Payload::new());
            next.wait_reply(rt, link, TURNS)
        }
        Err(_) => Collected::Nothing,
    };
    flags.done.store(true, Ordering::SeqCst);
    reply
}

/// The end of the next life, once the platform has answered what is outstanding.
fn next_life<C: Channel>(link: &Link<C>, end: AgentEnd<C>) -> Result<AgentEnd<C>, AgentEnd<C>>
    requires { IsOfLink (C.identity link.now.a2p) (C.identity link.now.p2a) end }
    ensures { IfOk result (IsOfLink (C.identity link.now.a2p) (C.identity link.now.p2a)) }
{
    let mut stays = end;
    'turns: for _ in 0..TURNS {
        stays = match stays.restart(link) {
            Ok(next) => return Ok(next),
            Err(stays) => stays,
        };
        yield_now();
    }
    Err(stays)
}

/// The reply to BASE_PROTOCOL_VERSION with token 0, the first of each life.
fn first_reply() -> Collected {
    Collected::Got(response(0x0000_4000))
}

#[test]
fn a_next_life_reads_no_reply_of_the_life_before_over_words(rt: HostRuntime) -> Result<(), Fail> {
    for round in 0..ROUNDS {
        let reply = live_twice::<WordChannel, _>(&rt, rt.alloc())?;
        assert!(rt; reply == first_reply(), "round {round}");
    }
    Ok(())
}

#[test]
fn a_next_life_reads_no_reply_of_the_life_before_over_rings(rt: HostRuntime) -> Result<(), Fail> {
    for round in 0..ROUNDS {
        let reply = live_twice::<RingChannel, _>(&rt, rt.alloc())?;
        assert!(rt; reply == first_reply(), "round {round}");
    }
    Ok(())
}
