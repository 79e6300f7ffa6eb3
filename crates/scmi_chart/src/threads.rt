//! The chart of a run of agents in threads.
ghost use Rattle.std.specs.Prelude.{◌≡◌, IfOk, length};
ghost use Rattle.std.specs.List.{All};
ghost use Rattle.scmi_link.specs.Scripts.{AreScriptsOf};
ghost use Rattle.scmi_ends.specs.Shut.{ShowsClose};
ghost use Rattle.scmi_plan.specs.RawPlan.{asked_board};
ghost use Rattle.scmi_text.specs.Step.{IsStepOf};
ghost use Rattle.scmi_chart.specs.Run.{ShowsRun};
ghost use Rattle.scmi_chart.specs.Threads.{HasScripts, ShowsScripts, ShowsThreads};

use crate::chart::Chart;
use crate::history::steps_of_run;
use crate::record_step::record_step;
use crate::recorder::Recorder;
use crate::run::{STEPS, plural, title_of};
use crate::value::{Value, filled_words};
use scmi_board::{Lines, TextLine, read_board};
use scmi_link::{Channel, RingChannel};
use scmi_modes::{Kind, RunError, Session, THREADS_RINGS, THREADS_WORDS};
use scmi_plan::{Plan, RawPlan};
use scmi_text::{PlainStep, Step, read_scripts};
use scmi_threads::{AgentLog, Gate, Outcome, Script, Stop, run_agents};
use scmi_words::WordChannel;
use std::alloc::{AllocError, Global};
use std::sync::Wait;
use std::thread::Threads;

/// Runs the scripts of a board's agents, each in a thread of its own, over channels of this kind,
/// and gives the chart of what that left. `Board`, `Script` and `Plan`, in this order, if the input
/// is rejected; then `Memory` if out of memory, and `Size` if the run has more than `STEPS` steps.
/// A run that met a limit is drawn as far as it came.
pub fn chart_of_threads<T: Threads + Wait + Sync, G: Gate>(
    rt: &T,
    alloc: Global,
    gate: &G,
    kind: Kind,
    bytes: &[u8],
) -> Result<Chart, RunError>
    ensures shown { IfOk result (ShowsThreads kind bytes.now) }
{
    let (board, scripts) = read_agents(alloc, bytes)?;
    match kind {
        Kind::Rings => draw_agents::<RingChannel, T, G>(rt, alloc, gate, kind, &board, &scripts),
        Kind::Words => draw_agents::<WordChannel, T, G>(rt, alloc, gate, kind, &board, &scripts),
    }
}

/// The board and the scripts that follow the first line.
fn read_agents(alloc: Global, bytes: &[u8]) -> Result<(RawPlan, Vec<Script>), RunError>
    ensures scripts { IfOk result (λ read.
        AreScriptsOf (length (asked_board read.0).agents) read.1.items) }
    ensures input { IfOk result (λ read.
        HasScripts bytes.now (asked_board read.0) read.1.items) }
{
    let mut lines = Lines::new(bytes);
    let board = read_board(alloc, &mut lines)?;
    let scripts = read_scripts(alloc, &mut lines, board.agent_count()?)?;
    Ok((board, scripts))
}

/// Runs scripts over channels of one kind, and draws what that left.
fn draw_agents<C: Channel, T: Threads + Wait + Sync, G: Gate>(
    rt: &T,
    alloc: Global,
    gate: &G,
    kind: Kind,
    board: &RawPlan,
    scripts: &[Script],
) -> Result<Chart, RunError>
    requires scripts { AreScriptsOf (length (asked_board board.now).agents) scripts.now }
    ensures { IfOk result (ShowsScripts C.FULL (ShowsClose C.caller_view C.close_shows)
        (asked_board board.now) scripts.now) }
{
    let plan = Plan::check(alloc, board)?;
    let outcome = run_agents::<C, G, T>(rt, alloc, gate, plan, scripts)?;
    if lacked_memory(&outcome) {
        return Err(RunError::Memory);
    }
    let steps = steps_of_run(alloc, &outcome.trace, &outcome.logs)?;
    if steps.len() > STEPS {
        return Err(RunError::Size);
    }
    let subtitle = subtitle_of(alloc, kind, outcome.trace.len())?;
    draw_steps::<C>(alloc, Plan::check(alloc, board)?, board, &steps, subtitle)
}

/// Whether a run was out of memory, and is only a part.
fn lacked_memory(outcome: &Outcome) -> bool {
    outcome.memory || lacked_room(&outcome.logs)
}

/// Whether a script ended because its log had no room.
fn lacked_room(logs: &[AgentLog]) -> bool {
    for log in logs {
        if log.stopped == Some(Stop::Memory) {
            return true;
        }
    }
    false
}

/// The line below the title of a run with this many events.
fn subtitle_of(alloc: Global, kind: Kind, events: usize) -> Result<Vec<u8>, AllocError> {
    let mode = match kind {
        Kind::Rings => THREADS_RINGS,
        Kind::Words => THREADS_WORDS,
    };
    let them: &[u8] = if events == 1 { b"it" } else { b"them" };
    let values = [
        Value::Words(mode.as_bytes()),
        Value::Count(events),
        Value::Words(plural(events)),
        Value::Words(them),
    ];
    filled_words(alloc, "%, % event%, as the platform executed %", &values)
}

/// Makes steps one by one on one thread, and records each.
fn draw_steps<C: Channel>(
    alloc: Global,
    plan: Plan,
    board: &RawPlan,
    steps: &[Step],
    subtitle: Vec<u8>,
) -> Result<Chart, RunError>
    requires agents { All (IsStepOf (length plan.agents)) steps.now }
    ensures { IfOk result (ShowsRun C.FULL (ShowsClose C.caller_view C.close_shows) plan
        (asked_board board.now) steps.now) }
{
    let mut session = Session::<C>::open(alloc, plan)?;
    let mut recorder = Recorder::new(alloc, board, session.core())?;
    'steps: for i in 0..steps.len() {
        let step = &steps[i];
        let text = format!(in alloc; "{}", PlainStep(step))?;
        let line = TextLine {
            number: line_number(i),
            text: text.as_bytes(),
        };
        record_step(alloc, line, step, &mut session, &mut recorder)?;
    }
    Ok(recorder.finish(title_of(alloc, board)?, subtitle)?)
}

/// The number of the line after this many others.
fn line_number(before: usize) -> u32 {
    u32::try_from(before.saturating_add(1)).unwrap_or(u32::MAX)
}
