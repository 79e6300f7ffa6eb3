//! The agents' side of a run: each script in a thread of its own.
ghost use Rattle.std.specs.Prelude.{◌<◌, ℕ, length, slice_index_or};
ghost use Rattle.std.specs.List.{AllZip};
ghost use Rattle.scmi_threads.specs.ScriptRuns.{HasPlayed};

use crate::gate::Gate;
use crate::script_run::ScriptRun;
use scmi_link::Channel;
use scmi_plan::AGENTS;
use std::sync::Wait;
use std::sync::atomic::{AtomicUsize, Ordering};
use std::thread::{Threads, for_each_mut};

/// Runs the scripts of all agents, each in a thread of its own if one can be made, and counts those
/// that have ended.
pub(crate) fn run_scripts<'a, C: Channel, G: Gate, R: Threads + Wait + Sync>(
    rt: &R,
    gate: &G,
    ended: &AtomicUsize,
    mut script_runs: Vec<ScriptRun<'a, C>>,
) -> Vec<ScriptRun<'a, C>>
    ensures { AllZip (HasPlayed C.FULL (G.asked gate.now)) script_runs.entry.items result.items }
{
    run_all(rt, gate, ended, &mut script_runs);
    script_runs
}

// The same of runs that are lent.
fn run_all<C: Channel, G: Gate, R: Threads + Wait + Sync>(
    rt: &R,
    gate: &G,
    ended: &AtomicUsize,
    script_runs: &mut [ScriptRun<'_, C>],
)
    ensures { AllZip (HasPlayed C.FULL (G.asked gate.now)) script_runs.old script_runs.new }
{
    run_each(rt, gate, ended, script_runs);
}

// The same, place by place.
fn run_each<C: Channel, G: Gate, R: Threads + Wait + Sync>(
    rt: &R,
    gate: &G,
    ended: &AtomicUsize,
    script_runs: &mut [ScriptRun<'_, C>],
)
    ensures { (i : ℕ) (d : _) → i < length script_runs.old →
        HasPlayed C.FULL (G.asked gate.now) (slice_index_or script_runs.old i d)
        (slice_index_or script_runs.new i d) }
{
    for_each_mut(
        rt,
        script_runs,
        AGENTS,
        &|_, script_run: &mut ScriptRun<'_, C>|
            ensures { HasPlayed C.FULL (G.asked gate.entry.now) script_run.old script_run.new }
        {
            script_run.run(rt, gate);
            ended.fetch_add(1, Ordering::SeqCst);
        },
    );
}
