//! How a run ends: all endpoints are gathered.
ghost use Rattle.std.specs.Prelude.{◌≡◌};
ghost use Rattle.std.specs.List.{All, AllZip};
ghost use Rattle.scmi_core.specs.Bounds.{HasBounds, HasResponses};
ghost use Rattle.scmi_core.specs.History.{deeds};
ghost use Rattle.scmi_core.specs.Legal.{IsLegal};
ghost use Rattle.scmi_ends.specs.Each.{AllFrom};
ghost use Rattle.scmi_ends.specs.Links.{HasLinks, AreEndsOf};
ghost use Rattle.scmi_plan.specs.Plan.{IsValid};
ghost use Rattle.scmi_threads.specs.Logs.{IsLogOf, LogHeadline};
ghost use Rattle.scmi_threads.specs.Orders.{IsUndisturbed};
ghost use Rattle.scmi_threads.specs.Rounds.{IsOpenToAll};

use crate::agent_log::AgentLog;
use crate::outcome::Outcome;
use scmi_ends::{AgentEnd, Controller, Link};
use scmi_link::Channel;

/// Gathers all endpoints. What they did is then known to agree with the history.
pub(crate) fn conclude<C: Channel>(
    controller: Controller<C>,
    links: Vec<Link<C>>,
    ends: Vec<AgentEnd<C>>,
    logs: Vec<AgentLog>,
    memory: bool,
) -> Outcome
    requires valid { IsValid controller.board }
    requires links { HasLinks C.identity links.items controller }
    requires open_ends { IsOpenToAll controller }
    requires ends { AreEndsOf C.identity links.items ends.items }
    requires logs { AllZip IsLogOf ends.items logs.items }
    ensures history { result.trace.events ≡ controller.history }
    ensures room { result.trace.room ≡ controller.room }
    ensures legal { IsLegal controller.board result.trace.events }
    ensures bounds { HasBounds controller.board (deeds controller.board result.trace.events) }
    ensures responses { HasResponses controller.board (deeds controller.board result.trace.events) }
    ensures logs { result.logs ≡ logs }
    ensures headline { AllFrom (λ a log.
        LogHeadline controller.board result.trace.events a log) 1 result.logs.items }
    ensures undisturbed { All (λ agent. IsUndisturbed agent.caller) ends.items }
    ensures refused { result.memory ≡ memory }
{
    Outcome {
        trace: controller.retire(links, ends),
        logs,
        memory,
    }
}
