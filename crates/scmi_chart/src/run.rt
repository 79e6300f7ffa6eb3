//! A run, and its chart.
ghost use Rattle.std.specs.Prelude.{◌≡◌, length, IfOk};
ghost use Rattle.std.specs.List.{All};
ghost use Rattle.scmi_ends.specs.Shut.{ShowsClose};
ghost use Rattle.scmi_plan.specs.RawPlan.{asked_board};
ghost use Rattle.scmi_board.specs.BoardLines.{IsLineOf, described};
ghost use Rattle.scmi_board.specs.Lines.{lines_left};
ghost use Rattle.scmi_text.specs.Step.{IsStepOf};
ghost use Rattle.scmi_text.specs.TextLines.{GivesScript};
ghost use Rattle.scmi_modes.specs.Input.{script_of_lines};
ghost use Rattle.scmi_modes.specs.Steps.{MayHave};
ghost use Rattle.scmi_chart.specs.Run.{ShowsRun, ShowsScript, StandsFor};

use crate::chart::Chart;
use crate::record_step::record_step;
use crate::recorder::Recorder;
use crate::value::{Value, filled_words};
use scmi_board::{BoardWithLines, END, Lines, TextError, TextLine};
use scmi_link::{Channel, RingChannel};
use scmi_modes::{
    HARDWARE_RINGS, HARDWARE_WORDS, Kind, RunError, STEPS_RINGS, STEPS_WORDS, ScriptKind, Session,
    plan_of, read_described,
};
use scmi_plan::{Plan, RawPlan};
use scmi_text::{Step, StepList, read_hardware_steps, read_steps};
use scmi_words::WordChannel;
use std::alloc::{AllocError, Global};

/// The most lines of a script.
pub const STEPS: usize = 2_000;

/// The chart of the run of a board and a script of this kind, over channels of this kind. `Board`,
/// `Script`, `Size` and `Plan`, in this order, if the input is rejected; `Memory` if out of memory.
/// Beside each step stands its line of `written`, or else of the script itself.
#[tactic(auto, using(crate::proofs::Inputs::steps_of_plan))]
pub fn chart_of(
    alloc: Global,
    script: ScriptKind,
    kind: Kind,
    bytes: &[u8],
    written: Option<&[u8]>,
) -> Result<Chart, RunError>
    ensures shown { IfOk result (ShowsScript script kind bytes.now) }
{
    let (said, steps) = read_input(alloc, script, bytes)?;
    if steps.len() > STEPS {
        return Err(RunError::Size);
    }
    let plan = plan_of(alloc, &said)?;
    let mut lines = behind_board(written.unwrap_or(bytes));
    let mode = mode_of(script, kind);
    match kind {
        Kind::Rings => {
            step_through::<RingChannel>(alloc, mode, plan, &said.board, &steps, &mut lines)
        }
        Kind::Words => {
            step_through::<WordChannel>(alloc, mode, plan, &said.board, &steps, &mut lines)
        }
    }
}

/// The first line that names the mode of a script of this kind over channels of this kind.
fn mode_of(script: ScriptKind, kind: Kind) -> &'static str {
    match (script, kind) {
        (ScriptKind::Plain, Kind::Rings) => STEPS_RINGS,
        (ScriptKind::Plain, Kind::Words) => STEPS_WORDS,
        (ScriptKind::Hardware, Kind::Rings) => HARDWARE_RINGS,
        (ScriptKind::Hardware, Kind::Words) => HARDWARE_WORDS,
    }
}

/// The board and the steps after the first line, in a script of this kind.
fn read_input<'a>(
    alloc: Global,
    script: ScriptKind,
    bytes: &'a [u8],
) -> Result<(BoardWithLines, StepList<'a>), RunError>
    ensures agents { IfOk result (λ read.
        All (IsStepOf (length (described read.0).0.agents)) read.1) }
    ensures channels { IfOk result (λ read.
        All (IsLineOf (described read.0).0) (described read.0).1) }
    ensures kinds { IfOk result (λ read. All (MayHave script) read.1) }
    ensures input { IfOk result (λ read. StandsFor script bytes.now (described read.0) read.1) }
{
    let mut lines = Lines::new(bytes);
    let said = read_described(alloc, &mut lines, script)?;
    let steps = read_script(alloc, script, &mut lines, said.board.agent_count()?)?;
    Ok((said, steps))
}

/// The steps of all lines that are left, in a script of this kind.
fn read_script<'a>(
    alloc: Global,
    script: ScriptKind,
    lines: &mut Lines<'a>,
    agents: u32,
) -> Result<StepList<'a>, TextError>
    ensures agents { IfOk result (λ steps. All (IsStepOf agents) steps) }
    ensures kinds { IfOk result (λ steps. All (MayHave script) steps) }
    ensures steps { GivesScript (λ steps. steps) result
        (script_of_lines script agents (lines_left lines.old)) }
{
    match script {
        ScriptKind::Plain => read_steps(alloc, lines, agents),
        ScriptKind::Hardware => read_hardware_steps(alloc, lines, agents),
    }
}

/// The lines of the script, which follow the last one of the board.
fn behind_board(bytes: &[u8]) -> Lines<'_> {
    let mut lines = Lines::new(bytes);
    while let Some(line) = lines.next_line() {
        if line.text == END {
            return lines;
        }
    }
    lines
}

/// Makes the steps one by one, and records each, with the notifications that it dropped.
fn step_through<C: Channel>(
    alloc: Global,
    mode: &str,
    plan: Plan,
    board: &RawPlan,
    steps: &StepList<'_>,
    lines: &mut Lines<'_>,
) -> Result<Chart, RunError>
    requires agents { All (IsStepOf (length plan.agents)) steps.now }
    ensures { IfOk result (ShowsRun C.FULL (ShowsClose C.caller_view C.close_shows) plan
        (asked_board board.now) steps.now) }
{
    let mut session = Session::<C>::open(alloc, plan)?;
    let mut recorder = Recorder::new(alloc, board, session.core())?;
    let mut step = Step::Advance;
    'steps: for i in 0..steps.len() {
        steps.read_into(i, &mut step);
        record_step(alloc, next_text(lines), &step, &mut session, &mut recorder)?;
    }
    let subtitle = subtitle_of(alloc, mode, steps.len(), session.retire().len())?;
    Ok(recorder.finish(title_of(alloc, board)?, subtitle)?)
}

/// The line below the title of a run of this many steps, which left this many events.
fn subtitle_of(
    alloc: Global,
    mode: &str,
    steps: usize,
    events: usize,
) -> Result<Vec<u8>, AllocError> {
    let values = [
        Value::Words(mode.as_bytes()),
        Value::Count(steps),
        Value::Words(plural(steps)),
        Value::Count(events),
        Value::Words(plural(events)),
    ];
    filled_words(alloc, "%, % step%, a history of % event%", &values)
}

/// The title of a chart of a platform of this board: its vendor and its sub-vendor.
pub fn title_of(alloc: Global, board: &RawPlan) -> Result<Vec<u8>, AllocError> {
    let vendor = Value::Words(board.vendor.as_bytes());
    let sub_vendor = Value::Words(board.sub_vendor.as_bytes());
    filled_words(alloc, "% %", &[vendor, sub_vendor])
}

/// The next line of the script.
fn next_text<'a>(lines: &mut Lines<'a>) -> TextLine<'a> {
    match lines.next_line() {
        Some(line) => line,
        None => TextLine {
            number: lines.last_number(),
            text: b"",
        },
    }
}

/// What follows a noun of which there are this many.
pub(crate) fn plural(count: usize) -> &'static [u8] {
    if count == 1 { b"" } else { b"s" }
}
