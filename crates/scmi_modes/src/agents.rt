//! A run of agents, with the errors of a run.
ghost use Rattle.std.specs.Prelude.{◌≡◌, true, length, vec_len, IfErr, IfOk};
ghost use Rattle.std.specs.List.{All};
ghost use Rattle.scmi_core.specs.Bounds.{HasBounds, HasResponses};
ghost use Rattle.scmi_core.specs.History.{deeds};
ghost use Rattle.scmi_core.specs.Legal.{IsLegal};
ghost use Rattle.scmi_core.specs.Plain.{IsPlain};
ghost use Rattle.scmi_link.specs.Scripts.{AreScriptsOf, orders_of};
ghost use Rattle.scmi_ends.specs.Each.{AllFrom};
ghost use Rattle.scmi_threads.specs.AfterClose.{EndsAtClose};
ghost use Rattle.scmi_threads.specs.Logs.{LogHeadline};
ghost use Rattle.scmi_threads.specs.ScriptLogs.{IsGatedLog, IsScriptLog};

use crate::run_error::RunError;
use scmi_link::Channel;
use scmi_plan::Plan;
use scmi_threads::{Gate, Outcome, Script};
use std::alloc::Global;
use std::sync::Wait;
use std::thread::Threads;

/// As `run_agents` of `scmi_threads`, whose only error, out of memory, is `Memory`.
pub fn run_agents<C: Channel, G: Gate, T: Threads + Wait + Sync>(
    rt: &T,
    alloc: Global,
    gate: &G,
    plan: Plan,
    scripts: &[Script],
) -> Result<Outcome, RunError>
    requires scripts { AreScriptsOf (length plan.agents) scripts.now }
    ensures legal { IfOk result (λ outcome. IsLegal plan outcome.trace.events) }
    ensures plain { IfOk result (λ outcome. All IsPlain outcome.trace.events) }
    ensures bounds { IfOk result (λ outcome. HasBounds plan (deeds plan outcome.trace.events)) }
    ensures responses { IfOk result (λ outcome.
        HasResponses plan (deeds plan outcome.trace.events)) }
    ensures count { IfOk result (λ outcome. vec_len outcome.logs ≡ length plan.agents) }
    ensures scripts { IfOk result (λ outcome.
        AllFrom (λ a log. IsScriptLog C.FULL (orders_of scripts.now a) log) 1 outcome.logs.items) }
    ensures gate { IfOk result (λ outcome.
        AllFrom (λ a log. IsGatedLog C.FULL (G.asked gate.now a) (orders_of scripts.now a) log)
        1 outcome.logs.items) }
    ensures headline { IfOk result (λ outcome.
        AllFrom (λ a log. LogHeadline plan outcome.trace.events a log) 1 outcome.logs.items) }
    ensures closed { IfOk result (λ outcome. AllFrom (λ a log.
        EndsAtClose C.FULL (orders_of scripts.now a) outcome.trace.events a log)
        1 outcome.logs.items) }
    ensures memory { IfOk result (λ outcome. outcome.memory ≡ true → outcome.trace.room ≡ 0) }
    ensures errors { IfErr result (λ e. e ≡ RunError.Memory) }
{
    let outcome = scmi_threads::run_agents::<C, G, T>(rt, alloc, gate, plan, scripts)?;
    Ok(outcome)
}
