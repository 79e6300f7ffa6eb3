//! Calls of the platform that no line of a script makes.

use crate::boards::plan;
use crate::eleven::Eleven;
use crate::messages::response;
use scmi_codec::{BASE_PROTOCOL, Payload};
use scmi_core::{Core, CoreError};
use scmi_ends::{ServeError, connect};
use scmi_link::Collected;
use std::alloc::Global;
use std::test::Fail;

/// What a new core answers: nothing is there, and there is no agent 9.
fn answers(core: &mut Core) -> [bool; 5] {
    [
        core.sent(1) == Err(CoreError::Nothing),
        core.sent(9) == Err(CoreError::NoAgent),
        core.front(9) == Err(CoreError::NoAgent),
        core.advance() == Ok(false),
        core.reserve() == Ok(()),
    ]
}

#[test]
fn a_new_core_has_nothing(rt: HostRuntime) -> Result<(), Fail> {
    let mut core = Core::new(rt.alloc(), plan(rt.alloc())?);
    assert_eq!(rt; answers(&mut core), [true; 5]);
    Ok(())
}

/// What serving agent 9 answers, and what an agent collects over a channel of the eleven methods.
fn serve_over_eleven(alloc: Global) -> Result<(bool, Collected), Fail> {
    let core = Core::new(alloc, plan(alloc)?);
    let Ok((mut platform, links, mut agents)) = connect::<Eleven>(alloc, core) else {
        return Err(Fail::from("no memory"));
    };
    let refused = platform.serve(&links, 9) == Err(ServeError::NoAgent);
    agents[0].call(&links[0], BASE_PROTOCOL, 0x0, &Payload::new())?;
    platform.serve(&links, 1)?;
    Ok((refused, agents[0].collect(&links[0])))
}

#[test]
fn agent_9_is_not_served(rt: HostRuntime) -> Result<(), Fail> {
    let (refused, collected) = serve_over_eleven(rt.alloc())?;
    assert!(rt; refused && collected == Collected::Got(response(0x0000_4000)));
    Ok(())
}
