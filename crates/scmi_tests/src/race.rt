//! One thread posts and closes at once while another serves.
ghost use Rattle.std.specs.Prelude.{◌≡◌};
ghost use Rattle.scmi_ends.specs.AgentView.{IsOfLink, HasSameIdentities};
ghost use Rattle.scmi_ends.specs.Links.{HasLinks, AreEndsOf};

use crate::boards::plan;
use crate::messages::{HEADER, command, response};
use scmi_core::Core;
use scmi_ends::{AgentEnd, Controller, Link, connect};
use scmi_link::{Channel, Closing, Collected, RingChannel};
use scmi_words::WordChannel;
use std::alloc::Global;
use std::sync::Wait;
use std::sync::atomic::{AtomicBool, Ordering};
use std::test::Fail;
use std::thread::{Threads, join, yield_now};

const ROUNDS: u32 = 1_000;

/// How often each side polls before it gives up.
const TURNS: u32 = 10_000_000;

/// How a round ended for the agent.
#[derive(Clone, Copy, PartialEq, Debug)]
enum Ended {
    /// Its close took the command back.
    Withdrawn,
    /// Its close was refused; it read the response, and a later close was `Idle`.
    Read,
    Otherwise,
}

/// What the two threads report to each other.
#[derive(Drop)]
struct Flags {
    serving: AtomicBool,
    done: AtomicBool,
}

/// One round: how it ended, and the number of events.
fn race<C: Channel, R: Threads + Wait + Sync>(
    rt: &R,
    alloc: Global,
) -> Result<(Ended, usize), Fail> {
    let core = Core::new(alloc, plan(alloc)?);
    let Ok((controller, links, agents)) = connect::<C>(alloc, core) else {
        return Err(Fail::from("no memory"));
    };
    let (controller, (agents, ended)) = run_beside(rt, &links, controller, agents);
    Ok((ended, controller.retire(links, agents).len()))
}

/// Serves in one thread while the agent has its round in another.
fn run_beside<C: Channel, R: Threads + Wait + Sync>(
    rt: &R,
    links: &[Link<C>],
    controller: Controller<C>,
    agents: Vec<AgentEnd<C>>,
) -> (Controller<C>, (Vec<AgentEnd<C>>, Ended))
    requires links { HasLinks C.identity links.now controller }
    requires agents { AreEndsOf C.identity links.now agents.items }
    ensures links { HasLinks C.identity links.now result.0 }
    ensures agents { AreEndsOf C.identity links.now result.1.0.items }
{
    let flags = Flags {
        serving: AtomicBool::new(false),
        done: AtomicBool::new(false),
    };
    join(
        rt,
        || -> Controller<C>
            requires { HasLinks C.identity links.now controller }
            ensures { HasLinks C.identity links.entry.now result }
        { serve_until_done(links, &flags, controller) },
        || -> (Vec<AgentEnd<C>>, Ended)
            requires { AreEndsOf C.identity links.now agents.items }
            ensures { AreEndsOf C.identity links.entry.now result.0.items }
        { have_round(rt, links, &flags, agents) },
    )
}

/// Serves agent 1 until it is done, and once more.
fn serve_until_done<C: Channel>(
    links: &[Link<C>],
    flags: &Flags,
    mut controller: Controller<C>,
) -> Controller<C>
    requires { HasLinks C.identity links.now controller }
    ensures { HasLinks C.identity links.now result }
{
    flags.serving.store(true, Ordering::SeqCst);
    'turns: for _ in 0..TURNS {
        let last = flags.done.load(Ordering::SeqCst);
        let _ = controller.serve(links, 1);
        if last {
            break;
        }
        yield_now();
    }
    controller
}

/// The first agent's round, which begins once the platform serves.
fn have_round<C: Channel, R: Wait>(
    rt: &R,
    links: &[Link<C>],
    flags: &Flags,
    mut agents: Vec<AgentEnd<C>>,
) -> (Vec<AgentEnd<C>>, Ended)
    requires { AreEndsOf C.identity links.now agents.items }
    ensures { AreEndsOf C.identity links.now result.0.items }
{
    if agents.is_empty() {
        return (agents, Ended::Otherwise);
    }
    wait_for(&flags.serving);
    let ended = post_and_close(rt, &mut agents[0], &links[0]);
    flags.done.store(true, Ordering::SeqCst);
    (agents, ended)
}

fn wait_for(flag: &AtomicBool) {
    for _ in 0..TURNS {
        if flag.load(Ordering::SeqCst) {
            return;
        }
        yield_now();
    }
}

/// Posts, and closes at once; if that is refused, reads the response and closes.
fn post_and_close<C: Channel, R: Wait>(rt: &R, end: &mut AgentEnd<C>, link: &Link<C>) -> Ended
    requires { IsOfLink (C.identity link.now.a2p) (C.identity link.now.p2a) end.old }
    ensures { HasSameIdentities end.old end.new }
{
    if end.post(link, &command()).is_err() {
        return Ended::Otherwise;
    }
    match end.close(link) {
        Ok(Closing::Withdrawn) => Ended::Withdrawn,
        Ok(Closing::Idle) => Ended::Otherwise,
        Err(_) => read_and_close(rt, end, link),
    }
}

fn read_and_close<C: Channel, R: Wait>(rt: &R, end: &mut AgentEnd<C>, link: &Link<C>) -> Ended
    requires { IsOfLink (C.identity link.now.a2p) (C.identity link.now.p2a) end.old }
    ensures { HasSameIdentities end.old end.new }
{
    let got = match end.wait_reply(rt, link, TURNS) {
        Collected::Got(answer) => answer == response(HEADER),
        _ => false,
    };
    if got && end.close(link) == Ok(Closing::Idle) {
        Ended::Read
    } else {
        Ended::Otherwise
    }
}

#[test]
fn close_race_over_words(rt: HostRuntime) -> Result<(), Fail> {
    for round in 0..ROUNDS {
        let (ended, events) = race::<WordChannel, _>(&rt, rt.alloc())?;
        let withdrawn = ended == Ended::Withdrawn && events == 0;
        let read = ended == Ended::Read && events == 1;
        assert!(rt; withdrawn || read, "round {round}: {ended:?} {events}");
    }
    Ok(())
}

#[test]
fn close_race_over_rings(rt: HostRuntime) -> Result<(), Fail> {
    for round in 0..ROUNDS {
        let (ended, events) = race::<RingChannel, _>(&rt, rt.alloc())?;
        let read = ended == Ended::Read && events == 1;
        assert!(rt; read, "round {round}: {ended:?} {events}");
    }
    Ok(())
}
