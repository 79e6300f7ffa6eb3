//! What the platform does in a step beside hardware that refuses each change with one fault.
ghost use Rattle.std.specs.Prelude.{◌≡◌, IfOk, OnErr};
ghost use Rattle.scmi_ends.specs.Links.{HasLinks};
ghost use Rattle.scmi_modes.specs.SessionSteps.{AdvancesRefused, ServesRefused};

use crate::refusing::Refusing;
use scmi_codec::Fault;
use scmi_ends::{Controller, Link, Served};
use scmi_link::Channel;
use std::alloc::AllocError;

/// Serves an agent.
pub(crate) fn serve<C: Channel>(
    fault: Fault,
    agent: u32,
    controller: &mut Controller<C>,
    links: &[Link<C>],
) -> Result<Served, AllocError>
    requires { HasLinks C.identity links.now controller.old }
    ensures links { HasLinks C.identity links.now controller.new }
    ensures serves { IfOk result (λ served.
        ServesRefused fault agent controller.old served controller.new) }
    ensures err { OnErr result (controller.new ≡ controller.old) }
{
    match controller.serve_on(links, agent, &mut Refusing { fault }) {
        Ok(served) => Ok(served),
        Err(_) => Err(AllocError),
    }
}

/// Ends one pending set as failed, if there is one.
pub(crate) fn advance<C: Channel>(
    fault: Fault,
    controller: &mut Controller<C>,
) -> Result<bool, AllocError>
    ensures advances { IfOk result (λ more.
        AdvancesRefused fault controller.old more controller.new) }
    ensures err { OnErr result (controller.new ≡ controller.old) }
{
    match controller.advance_on(&mut Refusing { fault }) {
        Ok(more) => Ok(more),
        Err(_) => Err(AllocError),
    }
}
