//! Both sides of a run at the same time.
ghost use Rattle.std.specs.Prelude.{◌≡◌, true};
ghost use Rattle.std.specs.List.{AllZip};
ghost use Rattle.scmi_ends.specs.Links.{HasLinks};
ghost use Rattle.scmi_threads.specs.Rounds.{IsOpenToAll, GoesOn};
ghost use Rattle.scmi_threads.specs.ScriptRuns.{HasPlayed};

use crate::agents_side::run_scripts;
use crate::gate::Gate;
use crate::platform_side::run_rounds;
use crate::script_run::ScriptRun;
use scmi_core::Hardware;
use scmi_ends::{Controller, Link, Processors};
use scmi_link::Channel;
use std::sync::Wait;
use std::sync::atomic::AtomicUsize;
use std::thread::{Threads, join};

/// Runs the scripts of all agents beside the controller's rounds, whose thread has the hardware, on
/// these processors.
/// Returns whether the rounds were refused memory.
pub(crate) fn run_beside<
    'a,
    C: Channel,
    G: Gate,
    H: Hardware + Send + Drop,
    R: Threads + Wait + Sync,
>(
    rt: &R,
    gate: &G,
    processors: Processors,
    hardware: H,
    links: &[Link<C>],
    controller: Controller<C>,
    script_runs: Vec<ScriptRun<'a, C>>,
) -> ((Controller<C>, bool, H), Vec<ScriptRun<'a, C>>)
    requires links { HasLinks C.identity links.now controller }
    requires open_ends { IsOpenToAll controller }
    ensures goes_on { GoesOn H.REFUSES C.identity links.now controller (H.asked hardware)
        result.0.0 (H.asked result.0.2) }
    ensures memory { result.0.1 ≡ true → result.0.0.room ≡ 0 }
    ensures ran { AllZip (HasPlayed C.FULL (G.asked gate.now)) script_runs.entry.items
        result.1.items }
{
    let ended = AtomicUsize::new(0);
    join(
        rt,
        || -> (Controller<C>, bool, H)
            requires links { HasLinks C.identity links.now controller }
            requires open_ends { IsOpenToAll controller }
            ensures goes_on { GoesOn H.REFUSES C.identity links.entry.now controller (H.asked hardware)
                result.0 (H.asked result.2) }
            ensures memory { result.1 ≡ true → result.0.room ≡ 0 }
        { run_rounds(rt, processors, links, &ended, controller, hardware) },
        || -> Vec<ScriptRun<C>>
            ensures { AllZip (HasPlayed C.FULL (G.asked gate.entry.now)) script_runs.entry.items result.items }
        { run_scripts(rt, gate, &ended, script_runs) },
    )
}
