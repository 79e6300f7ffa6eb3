//! The modes `steps` and `hardware`: a board and a script, all on one thread.
ghost use Rattle.std.specs.Prelude.{◌≡◌, ◌≤◌, ◌+◌, ◌⊎◌, List, length, Ok, IfErr, IfOk, IfSome, IsErrOf, MatchResult, OnOk};
ghost use Rattle.std.specs.List.{All};
ghost use Rattle.std.specs.Io.KnownBytes.{Appends};
ghost use Rattle.scmi_board.specs.Lines.{lines_left};
ghost use Rattle.scmi_ends.specs.Shut.{ShowsClose};
ghost use Rattle.scmi_text.specs.Step.{IsStepOf};
ghost use Rattle.scmi_text.specs.StepLine.{step_text};
ghost use Rattle.scmi_text.specs.TextLines.{GivesScript};
ghost use Rattle.scmi_modes.specs.Input.{FailsInput, IsFaultOf, script_of_lines, steps_of_input};
ghost use Rattle.scmi_modes.specs.Reads.{StopsAtFailure};
ghost use Rattle.scmi_modes.specs.RunError.{status_of};
ghost use Rattle.scmi_modes.specs.Runs.{may_be_full};
ghost use Rattle.scmi_modes.specs.Steps.{AreStepLines, IsTextOfSteps, MayHave, WritesFirstSteps, WritesHardware, WritesScript, WritesSteps, shows_close};
ghost use Rattle.scmi_io.specs.declared.input.TheConstants.{INPUT_BYTES};

use crate::described::{plan_of, read_described};
use crate::kind::Kind;
use crate::run_error::RunError;
use crate::script_kind::ScriptKind;
use crate::session::Session;
use scmi_board::{Lines, TextError};
use scmi_io::{CountedRead, CountedReader, read_rest};
use scmi_link::{Channel, RingChannel};
use scmi_plan::Plan;
use scmi_text::{Step, StepLine, StepList, read_hardware_steps, read_steps, write_step_line};
use scmi_words::WordChannel;
use std::alloc::Global;
use std::io::{Read, Write};

/// Reads a board and a script, makes its steps one by one, and writes the line of each, and then
/// the length of the history. `Size`, `Read`, `Board`, `Script` and `Plan` if the input is
/// rejected; after each of these nothing is written. `Memory` when out of memory, and `Write` if
/// the output fails: after these the lines of the steps before are written, one for each of them.
/// How often the reader is read is a promise of `run_steps_counted`.
pub fn run_steps<R: Read, W: Write>(
    alloc: Global,
    reader: &mut R,
    writer: &mut W,
    kind: Kind,
) -> Result<(), RunError>
    ensures text { OnOk result
        (WritesSteps (R.remaining reader.old) kind (W.contents writer.old)
        (W.contents writer.new)) }
    ensures memory { IsErrOf result RunError.Memory →
        WritesFirstSteps ScriptKind.Plain (R.remaining reader.old) kind (W.contents writer.old)
        (W.contents writer.new) }
    ensures faults { IfErr result (λ e. IfSome (R.remaining reader.old)
        (λ input. IsFaultOf input (steps_of_input ScriptKind.Plain input) e)) }
    ensures kept { IfErr result (λ e. status_of e ≡ 2 → writer.new ≡ writer.old) }
{
    run_steps_counted(alloc, &mut CountedReader::new(reader), writer, kind)
}

/// The same of a reader that counts, by at most `INPUT_BYTES + 1` reads. A read that fails is the
/// last.
pub fn run_steps_counted<R: CountedRead, W: Write>(
    alloc: Global,
    reader: &mut R,
    writer: &mut W,
    kind: Kind,
) -> Result<(), RunError>
    ensures text { OnOk result
        (WritesSteps (R.remaining reader.old) kind (W.contents writer.old)
        (W.contents writer.new)) }
    ensures memory { IsErrOf result RunError.Memory →
        WritesFirstSteps ScriptKind.Plain (R.remaining reader.old) kind (W.contents writer.old)
        (W.contents writer.new) }
    ensures faults { IfErr result (λ e. IfSome (R.remaining reader.old)
        (λ input. IsFaultOf input (steps_of_input ScriptKind.Plain input) e)) }
    ensures kept { IfErr result (λ e. status_of e ≡ 2 → writer.new ≡ writer.old) }
    ensures reads { R.reads reader.new ≤ R.reads reader.old + (INPUT_BYTES + 1) }
    ensures stops { StopsAtFailure result (R.since_failure reader.old)
        (R.since_failure reader.new) }
{
    run_script(alloc, reader, writer, kind, ScriptKind::Plain)
}

/// As `run_steps_counted`, of a script that may have steps beside hardware that refuses.
pub fn run_hardware_counted<R: CountedRead, W: Write>(
    alloc: Global,
    reader: &mut R,
    writer: &mut W,
    kind: Kind,
) -> Result<(), RunError>
    ensures text { OnOk result
        (WritesHardware (R.remaining reader.old) kind (W.contents writer.old)
        (W.contents writer.new)) }
    ensures memory { IsErrOf result RunError.Memory →
        WritesFirstSteps ScriptKind.Hardware (R.remaining reader.old) kind (W.contents writer.old)
        (W.contents writer.new) }
    ensures faults { IfErr result (λ e. IfSome (R.remaining reader.old)
        (λ input. IsFaultOf input (steps_of_input ScriptKind.Hardware input) e)) }
    ensures kept { IfErr result (λ e. status_of e ≡ 2 → writer.new ≡ writer.old) }
    ensures reads { R.reads reader.new ≤ R.reads reader.old + (INPUT_BYTES + 1) }
    ensures stops { StopsAtFailure result (R.since_failure reader.old)
        (R.since_failure reader.new) }
{
    run_script(alloc, reader, writer, kind, ScriptKind::Hardware)
}

/// Makes the steps of a script of this kind.
fn run_script<R: CountedRead, W: Write>(
    alloc: Global,
    reader: &mut R,
    writer: &mut W,
    kind: Kind,
    script: ScriptKind,
) -> Result<(), RunError>
    ensures text { OnOk result
        (WritesScript script (R.remaining reader.old) kind (W.contents writer.old)
        (W.contents writer.new)) }
    ensures memory { IsErrOf result RunError.Memory →
        WritesFirstSteps script (R.remaining reader.old) kind (W.contents writer.old)
        (W.contents writer.new) }
    ensures faults { IfErr result (λ e. IfSome (R.remaining reader.old)
        (λ input. IsFaultOf input (steps_of_input script input) e)) }
    ensures kept { IfErr result (λ e. status_of e ≡ 2 → writer.new ≡ writer.old) }
    ensures reads { R.reads reader.new ≤ R.reads reader.old + (INPUT_BYTES + 1) }
    ensures stops { StopsAtFailure result (R.since_failure reader.old)
        (R.since_failure reader.new) }
{
    let bytes = read_rest(alloc, reader)?;
    let (plan, steps) = read_input(alloc, &bytes, script)?;
    step_over(alloc, kind, plan, &steps, writer)
}

/// The board and the steps that follow the first line, in a script of this kind.
fn read_input<'a>(
    alloc: Global,
    bytes: &'a [u8],
    script: ScriptKind,
) -> Result<(Plan, StepList<'a>), RunError>
    ensures agents { IfOk result (λ read. All (IsStepOf (length read.0.agents)) read.1) }
    ensures kinds { IfOk result (λ read. All (MayHave script) read.1) }
    ensures input { MatchResult result
        (λ read. steps_of_input script bytes.now ≡ Ok (read.0, read.1))
        (λ e. FailsInput e (steps_of_input script bytes.now)) }
{
    let mut lines = Lines::new(bytes);
    let said = read_described(alloc, &mut lines, script)?;
    let steps = read_script(alloc, &mut lines, said.board.agent_count()?, script)?;
    let plan = plan_of(alloc, &said)?;
    Ok((plan, steps))
}

/// The steps of all lines that are left, in a script of this kind.
fn read_script<'a>(
    alloc: Global,
    lines: &mut Lines<'a>,
    agents: u32,
    script: ScriptKind,
) -> Result<StepList<'a>, TextError>
    ensures agents { IfOk result (λ steps. All (IsStepOf agents) steps) }
    ensures kinds { IfOk result (λ steps. All (MayHave script) steps) }
    ensures steps { GivesScript (λ steps. steps) result
        (script_of_lines script agents (lines_left lines.old)) }
{
    match script {
        ScriptKind::Plain => read_steps(alloc, lines, agents),
        ScriptKind::Hardware => read_hardware_steps(alloc, lines, agents),
    }
}

/// Makes these steps over channels of one kind.
fn step_over<W: Write>(
    alloc: Global,
    kind: Kind,
    plan: Plan,
    steps: &StepList<'_>,
    writer: &mut W,
) -> Result<(), RunError>
    requires { All (IsStepOf (length plan.agents)) steps.now }
    ensures text { OnOk result (IsTextOfSteps (may_be_full kind) (shows_close kind) plan steps.now
        (W.contents writer.old) (W.contents writer.new)) }
    ensures memory { IsErrOf result RunError.Memory →
        (W.contents writer.new ≡ W.contents writer.old) ⊎
        AreStepLines (may_be_full kind) (shows_close kind) plan steps.now
        (W.contents writer.old) (W.contents writer.new) }
    ensures errors { IfErr result (λ e. (e ≡ RunError.Memory) ⊎ (e ≡ RunError.Write)) }
{
    match kind {
        Kind::Rings => step_through::<RingChannel, W>(alloc, plan, steps, writer),
        Kind::Words => step_through::<WordChannel, W>(alloc, plan, steps, writer),
    }
}

fn step_through<C: Channel, W: Write>(
    alloc: Global,
    plan: Plan,
    steps: &StepList<'_>,
    writer: &mut W,
) -> Result<(), RunError>
    requires { All (IsStepOf (length plan.agents)) steps.now }
    ensures text { OnOk result (IsTextOfSteps C.FULL (ShowsClose C.caller_view C.close_shows)
        plan steps.now (W.contents writer.old) (W.contents writer.new)) }
    ensures memory { IsErrOf result RunError.Memory →
        (W.contents writer.new ≡ W.contents writer.old) ⊎
        AreStepLines C.FULL (ShowsClose C.caller_view C.close_shows) plan steps.now
        (W.contents writer.old) (W.contents writer.new) }
    ensures errors { IfErr result (λ e. (e ≡ RunError.Memory) ⊎ (e ≡ RunError.Write)) }
{
    let mut session = Session::<C>::open(alloc, plan)?;
    let mut step = Step::Advance;
    'steps: for i in 0..steps.len() {
        steps.read_into(i, &mut step);
        write_line(writer, &session.step(&step)?)?;
    }
    let events = session.retire().len();
    write_line(writer, &StepLine::Trace { events })
}

fn write_line<W: Write>(writer: &mut W, line: &StepLine) -> Result<(), RunError>
    ensures text { OnOk result (Appends (W.contents writer.old) (W.contents writer.new)
        (step_text line.now)) }
    ensures errors { IfErr result (λ e. e ≡ RunError.Write) }
{
    write_step_line(writer, line).map_err(|_| RunError::Write)
}
