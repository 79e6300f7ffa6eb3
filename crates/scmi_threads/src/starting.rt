//! How the runs of the scripts begin, and how they end.
ghost use Rattle.std.specs.Prelude.{◌≡◌, ◌≤◌, [], map, vec_len, vec_capacity, IfOk};
ghost use Rattle.std.specs.List.{AllZip};
ghost use Rattle.scmi_link.specs.Scripts.{orders_of};
ghost use Rattle.scmi_ends.specs.Each.{AllFrom};
ghost use Rattle.scmi_ends.specs.AgentView.{IsNewAgent};
ghost use Rattle.scmi_ends.specs.Links.{AreEndsOf, identities_of_a2p, identities_of_p2a};
ghost use Rattle.scmi_threads.specs.Logs.{IsLogOf};
ghost use Rattle.scmi_threads.specs.ScriptRuns.{IsStarted};

use crate::agent_log::AgentLog;
use crate::script_run::ScriptRun;
use scmi_ends::{AgentEnd, Link, Processors};
use scmi_link::{Channel, Order, Script};
use std::alloc::{AllocError, Global};

/// The run of a script for each agent, in order, with its link and its script, on these processors.
pub(crate) fn start_runs<'a, C: Channel>(
    alloc: Global,
    processors: Processors,
    links: &'a [Link<C>],
    scripts: &'a [Script],
    mut ends: Vec<AgentEnd<C>>,
) -> Result<Vec<ScriptRun<'a, C>>, AllocError>
    requires ends { AreEndsOf C.identity links.now ends.items }
    requires fresh { AllFrom IsNewAgent 1 ends.items }
    ensures a2p { IfOk result (λ runs.
        map (λ run. run.end.a2p_identity) runs.items ≡
        identities_of_a2p C.identity links.entry.now) }
    ensures p2a { IfOk result (λ runs.
        map (λ run. run.end.p2a_identity) runs.items ≡
        identities_of_p2a C.identity links.entry.now) }
    ensures started { IfOk result (λ runs. AllFrom (IsStarted scripts.entry.now) 1 runs.items) }
{
    let mut script_runs = Vec::new(alloc);
    'links: for i in 0..links.len() {
        let end = ends.remove(0);
        let script = script_of(scripts, end.id());
        let script_run = ScriptRun::new(alloc, processors, &links[i], script, end);
        script_runs.push(script_run)?;
    }
    Ok(script_runs)
}

/// The lines of an agent's script; none if it has no script.
fn script_of(scripts: &[Script], agent: u32) -> &[Order]
    ensures { result.now ≡ orders_of scripts.entry.now agent }
{
    for script in scripts {
        if script.agent == agent {
            return &script.lines;
        }
    }
    &[]
}

/// The endpoints and the logs of the runs, in order. There is room for them.
pub(crate) fn end_runs<C: Channel>(
    mut script_runs: Vec<ScriptRun<'_, C>>,
    mut ends: Vec<AgentEnd<C>>,
    mut logs: Vec<AgentLog>,
) -> (Vec<AgentEnd<C>>, Vec<AgentLog>)
    requires empty { (ends.items ≡ []) × (logs.items ≡ []) }
    requires ends { vec_len script_runs ≤ vec_capacity ends }
    requires logs { vec_len script_runs ≤ vec_capacity logs }
    ensures a2p { map (λ agent. agent.a2p_identity) result.0.items ≡
        map (λ run. run.end.a2p_identity) script_runs.entry.items }
    ensures p2a { map (λ agent. agent.p2a_identity) result.0.items ≡
        map (λ run. run.end.p2a_identity) script_runs.entry.items }
    ensures logs { AllZip IsLogOf result.0.items result.1.items }
    ensures same { (result.0.items ≡ map (λ run. run.end) script_runs.entry.items) ×
        (result.1.items ≡ map (λ run. run.log) script_runs.entry.items) }
{
    'script_runs: while !script_runs.is_empty() {
        let ScriptRun {
            processors: _,
            link: _,
            script: _,
            end,
            log,
        } = script_runs.remove(0);
        ends.push_reserved(end);
        logs.push_reserved(log);
    }
    (ends, logs)
}
