//! The library in one function, as docs/RATTLE.md shows it.

use crate::boards::board;
use crate::messages::response;
use scmi_codec::{BASE_PROTOCOL, Payload};
use scmi_core::Core;
use scmi_ends::connect;
use scmi_link::Collected;
use scmi_plan::{Plan, RawPlan};
use scmi_words::WordChannel;
use std::alloc::Global;
use std::test::Fail;

/// Agent 1 of a board asks the platform for the version of its base protocol. Gives the reply, and
/// the number of events in the platform's history.
fn ask_version(alloc: Global, board: &RawPlan) -> Result<(Collected, usize), Fail> {
    let core = Core::new(alloc, Plan::check(alloc, board)?);
    let Ok((mut platform, links, mut agents)) = connect::<WordChannel>(alloc, core) else {
        return Err(Fail::from("no memory"));
    };
    // The agent posts, the platform takes, executes and answers, and the agent collects.
    agents[0].call(&links[0], BASE_PROTOCOL, 0x0, &Payload::new())?;
    platform.serve(&links, 1)?;
    let reply = agents[0].collect(&links[0]);
    // All endpoints come together: the whole history, which the headline is about.
    let history = platform.retire(links, agents);
    Ok((reply, history.len()))
}

#[test]
fn an_agent_asks_for_the_version(rt: HostRuntime) -> Result<(), Fail> {
    let (reply, events) = ask_version(rt.alloc(), &board(rt.alloc())?)?;
    assert!(rt; reply == Collected::Got(response(0x0000_4000)));
    assert_eq!(rt; events, 1);
    Ok(())
}
