//! The run: each agent in a thread of its own, and the controller in another.
ghost use Rattle.std.specs.Prelude.{◌≡◌, ◌≤◌, [], false, true, List, length, vec_len, vec_capacity, IfOk, OnErr};
ghost use Rattle.std.specs.List.{All};
ghost use Rattle.scmi_core.specs.Asked.{Asked};
ghost use Rattle.scmi_core.specs.Bounds.{HasBounds, HasResponses};
ghost use Rattle.scmi_core.specs.Driven.{HasMade};
ghost use Rattle.scmi_core.specs.History.{deeds};
ghost use Rattle.scmi_core.specs.Legal.{IsLegal};
ghost use Rattle.scmi_link.specs.Scripts.{AreScriptsOf, orders_of};
ghost use Rattle.scmi_ends.specs.Each.{AllFrom};
ghost use Rattle.scmi_threads.specs.AfterClose.{EndsAtClose};
ghost use Rattle.scmi_threads.specs.Logs.{LogHeadline};
ghost use Rattle.scmi_core.specs.Plain.{IsNoReport, IsNoRestart, IsPlain};
ghost use Rattle.scmi_threads.specs.ScriptLogs.{IsGatedLog, IsScriptLog};

use crate::both_sides::run_beside;
use crate::concluding::conclude;
use crate::gate::Gate;
use crate::outcome::Outcome;
use crate::starting::{end_runs, start_runs};
use scmi_core::{Core, Hardware, NoHardware};
use scmi_ends::{Processors, connect};
use scmi_link::{Channel, Script};
use scmi_plan::Plan;
use std::alloc::{AllocError, Global};
use std::sync::Wait;
use std::thread::Threads;

/// Runs the scripts on a new platform of this plan, each agent in a thread of its own and the
/// controller in one (own). If a thread cannot be made, its part runs whole on another's before
/// that one's part, the controller's last. An agent without a script does nothing. The controller
/// serves each agent by rising number, completes one pending set, and flushes each agent's outbox
/// by rising number; it ends after one more such round once it has seen that all scripts have
/// ended, or with the first that is refused memory.
///
/// Condition: each script is of an agent of the plan, numbered from 1, and no two are of the same.
/// The trace is a legal history of the plan, of commands, advances and postings alone. The logs are
/// the agents', in order. Of each: the commands executed for it are those it posted, in order, each
/// once, at most the last left out; each answer it read is the one at that command's place; after a
/// close with nothing outstanding all were executed and read, and a command that was withdrawn was
/// not executed; the messages it took are those delivered, at most the last left out, and with its
/// outbox they are all that was made for it, in which no delayed response is lost; and its n-th
/// command has token (n - 1) modulo 1,024. Each log follows its agent's script order by order, and
/// to its end if it was not stopped, and before each line that was begun the gate was asked with
/// that agent and line. A wait that ran out had `TURNS` polls, and one that was answered at least
/// one and at most `TURNS`; a log counts them, modulo 2^64. After a close that succeeded no further
/// command of the script is executed: its other orders post nothing, read no answer and take no
/// message. Running out of memory before the scripts start is the only refusal.
pub fn run_agents<C: Channel, G: Gate, R: Threads + Wait + Sync>(
    rt: &R,
    alloc: Global,
    gate: &G,
    plan: Plan,
    scripts: &[Script],
) -> Result<Outcome, AllocError>
    requires scripts { AreScriptsOf (length plan.agents) scripts.now }
    ensures legal { IfOk result (λ outcome. IsLegal plan outcome.trace.events) }
    ensures plain { IfOk result (λ outcome. All IsPlain outcome.trace.events) }
    ensures bounds { IfOk result (λ outcome. HasBounds plan (deeds plan outcome.trace.events)) }
    ensures responses { IfOk result (λ outcome.
        HasResponses plan (deeds plan outcome.trace.events)) }
    ensures count { IfOk result (λ outcome. vec_len outcome.logs ≡ length plan.agents) }
    ensures scripts { IfOk result (λ outcome.
        AllFrom (λ a log. IsScriptLog C.FULL (orders_of scripts.now a) log) 1 outcome.logs.items) }
    ensures gate { IfOk result (λ outcome.
        AllFrom (λ a log. IsGatedLog C.FULL (G.asked gate.now a) (orders_of scripts.now a) log)
        1 outcome.logs.items) }
    ensures headline { IfOk result (λ outcome.
        AllFrom (λ a log. LogHeadline plan outcome.trace.events a log) 1 outcome.logs.items) }
    ensures closed { IfOk result (λ outcome. AllFrom (λ a log.
        EndsAtClose C.FULL (orders_of scripts.now a) outcome.trace.events a log)
        1 outcome.logs.items) }
    ensures memory { IfOk result (λ outcome. outcome.memory ≡ true → outcome.trace.room ≡ 0) }
{
    run_agents_on::<C, G, NoHardware, R>(rt, alloc, gate, NoHardware, plan, scripts).0
}

/// As `run_agents`, beside the hardware, which goes into the controller's thread and comes back
/// (own). What a command or a completion changes of it is made first; if the hardware refuses that,
/// the command has failed, and its answer is the status of the fault at its place in the history,
/// or the set ends as failed with that fault.
///
/// No agent is restarted, the hardware reports nothing, and beside hardware that never refuses no
/// event is a failed one. Hardware that keeps a list was asked for exactly what belongs to the
/// trace, in order, each change once, after what it was asked for before: it has made what the
/// trace changes, and refused what failed. After an error it comes back as it was.
pub fn run_agents_on<C: Channel, G: Gate, H: Hardware + Send + Drop, R: Threads + Wait + Sync>(
    rt: &R,
    alloc: Global,
    gate: &G,
    hardware: H,
    plan: Plan,
    scripts: &[Script],
) -> (Result<Outcome, AllocError>, H)
    requires scripts { AreScriptsOf (length plan.agents) scripts.now }
    ensures legal { IfOk result.0 (λ outcome. IsLegal plan outcome.trace.events) }
    ensures no_restart { IfOk result.0 (λ outcome. All IsNoRestart outcome.trace.events) }
    ensures no_report { IfOk result.0 (λ outcome. All IsNoReport outcome.trace.events) }
    ensures plain { H.REFUSES ≡ false →
        IfOk result.0 (λ outcome. All IsPlain outcome.trace.events) }
    ensures bounds { IfOk result.0 (λ outcome. HasBounds plan (deeds plan outcome.trace.events)) }
    ensures responses { IfOk result.0 (λ outcome.
        HasResponses plan (deeds plan outcome.trace.events)) }
    ensures count { IfOk result.0 (λ outcome. vec_len outcome.logs ≡ length plan.agents) }
    ensures scripts { IfOk result.0 (λ outcome.
        AllFrom (λ a log. IsScriptLog C.FULL (orders_of scripts.now a) log) 1 outcome.logs.items) }
    ensures gate { IfOk result.0 (λ outcome.
        AllFrom (λ a log. IsGatedLog C.FULL (G.asked gate.now a) (orders_of scripts.now a) log)
        1 outcome.logs.items) }
    ensures headline { IfOk result.0 (λ outcome.
        AllFrom (λ a log. LogHeadline plan outcome.trace.events a log) 1 outcome.logs.items) }
    ensures closed { IfOk result.0 (λ outcome. AllFrom (λ a log.
        EndsAtClose C.FULL (orders_of scripts.now a) outcome.trace.events a log)
        1 outcome.logs.items) }
    ensures memory { IfOk result.0 (λ outcome. outcome.memory ≡ true → outcome.trace.room ≡ 0) }
    ensures made { IfOk result.0 (λ outcome. (before : List Asked)
        → HasMade before plan [] (H.asked hardware)
        → HasMade before plan outcome.trace.events (H.asked result.1)) }
    ensures unasked { OnErr result.0 (result.1 ≡ hardware) }
{
    let agents = plan.agents() as usize;
    let core = Core::new(alloc, plan);
    let Ok((controller, links, ends)) = connect::<C>(alloc, core) else {
        return (Err(AllocError), hardware);
    };
    let processors = Processors::allowed(rt);
    let Ok(script_runs) = start_runs(alloc, processors, &links, scripts, ends) else {
        return (Err(AllocError), hardware);
    };
    // What gives the endpoints and the logs back takes no memory, so that it cannot be refused.
    let Ok(room) = Vec::with_capacity(alloc, agents) else {
        return (Err(AllocError), hardware);
    };
    let Ok(logs) = Vec::with_capacity(alloc, agents) else {
        return (Err(AllocError), hardware);
    };
    let ((controller, memory, hardware), script_runs) = run_beside(
        rt,
        gate,
        processors,
        hardware,
        &links,
        controller,
        script_runs,
    );
    let (ends, logs) = end_runs(script_runs, room, logs);
    (
        Ok(conclude(controller, links, ends, logs, memory)),
        hardware,
    )
}
