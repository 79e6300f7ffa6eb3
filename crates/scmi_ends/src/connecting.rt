//! How the two sides of a platform are made.
ghost use Rattle.std.specs.Prelude.{◌≡◌, [], None, length, replicate, vec_len, IfOk, IfErr};
ghost use Rattle.scmi_link.specs.View.{new_caller, new_callee};
ghost use Rattle.scmi_ends.specs.Each.{AllFrom};
ghost use Rattle.scmi_ends.specs.AgentView.{IsOfLink, IsNewAgent};
ghost use Rattle.scmi_ends.specs.Links.{HasLinks, AreEndsOf};
ghost use Rattle.scmi_ends.specs.Agreement.{IsInStep};

use crate::agent_end::AgentEnd;
use crate::buffers::Buffers;
use crate::controller::Controller;
use crate::link::Link;
use scmi_core::Core;
use scmi_link::{Channel, LinkError};
use std::alloc::Global;

/// Makes two channels for each agent of the board, and gives out their endpoints. Item i of the
/// links and of the agents' endpoints is agent i + 1's.
///
/// Condition: nothing is in the core's history. Running out of memory is the only error, and it
/// hands the core back as it was.
pub fn connect<C: Channel>(
    alloc: Global,
    core: Core,
) -> Result<(Controller<C>, Vec<Link<C>>, Vec<AgentEnd<C>>), Core>
    requires { core.history ≡ [] }
    ensures count { IfOk result (λ r.
        (vec_len r.1 ≡ length core.board.agents) × (vec_len r.2 ≡ length core.board.agents)) }
    ensures controller { IfOk result (λ r.
        (r.0.board ≡ core.board) × (r.0.history ≡ []) ×
        (r.0.callees ≡ replicate (length core.board.agents) new_callee) ×
        (r.0.callers ≡ replicate (length core.board.agents) new_caller)) }
    ensures closed_at { IfOk result (λ r.
        r.0.closed_at ≡ replicate (length core.board.agents) None) }
    ensures agrees { IfOk result (λ r. IsInStep r.0) }
    ensures links { IfOk result (λ r. HasLinks C.identity r.1.items r.0) }
    ensures ends { IfOk result (λ r. AreEndsOf C.identity r.1.items r.2.items) }
    ensures agents { IfOk result (λ r. AllFrom IsNewAgent 1 r.2.items) }
    ensures err { IfErr result (λ c. c ≡ core) }
{
    let mut links = Vec::new(alloc);
    let mut callees = Vec::new(alloc);
    let mut callers = Vec::new(alloc);
    let mut agents = Vec::new(alloc);
    let mut closed_at = Vec::new(alloc);
    for index in 0..core.agents() {
        let Ok((link, agent, callee, caller)) = make_one(alloc, index + 1) else {
            return Err(core);
        };
        let Ok(()) = links.push(link) else {
            return Err(core);
        };
        let Ok(()) = callees.push(callee) else {
            return Err(core);
        };
        let Ok(()) = callers.push(caller) else {
            return Err(core);
        };
        let Ok(()) = agents.push(agent) else {
            return Err(core);
        };
        let Ok(()) = closed_at.push(None) else {
            return Err(core);
        };
    }
    Ok((
        Controller {
            core,
            callees,
            callers,
            closed_at,
            buffers: Buffers::new(),
        },
        links,
        agents,
    ))
}

// The channels of one agent: its link, its own endpoints, and the platform's endpoints of A2P and
// P2A.
fn make_one<C: Channel>(
    alloc: Global,
    id: u32,
) -> Result<(Link<C>, AgentEnd<C>, C::Callee, C::Caller), LinkError>
    ensures platform { IfOk result (λ r.
        (C.callee_identity r.2 ≡ C.identity r.0.a2p) ×
        (C.caller_identity r.3 ≡ C.identity r.0.p2a)) }
    ensures agent { IfOk result (λ r. IsOfLink (C.identity r.0.a2p) (C.identity r.0.p2a) r.1) }
    ensures new { IfOk result (λ r.
        IsNewAgent id r.1 × (C.callee_view r.2 ≡ new_callee) × (C.caller_view r.3 ≡ new_caller)) }
{
    let (a2p, caller, callee) = C::make(alloc)?;
    let (p2a, sender, receiver) = C::make(alloc)?;
    let agent = AgentEnd::new(caller, receiver, id);
    Ok((Link { a2p, p2a }, agent, callee, sender))
}
