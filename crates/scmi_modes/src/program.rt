//! A run from its first line to its exit status.
ghost use Rattle.std.specs.Prelude.{◌≡◌, ◌≢◌, ◌≤◌, ◌+◌, ◌*◌, IfErr, IfSome, OnOk};
ghost use Rattle.scmi_io.specs.declared.input.TheConstants.{INPUT_BYTES};
ghost use Rattle.scmi_modes.specs.Once.{IsAnswerTo};
ghost use Rattle.scmi_modes.specs.Program.{AnswersOnce, NamesMode, NamesNoHardware, RunsHardware, RunsSteps, RunsThreads};
ghost use Rattle.scmi_modes.specs.Reads.{StopsAtFailure};
ghost use Rattle.scmi_modes.specs.Fault.{EndsWithFault, IsFaultIn, IsFaultOfRun};
ghost use Rattle.scmi_modes.specs.RunError.{status_of};
ghost use Rattle.scmi_modes.specs.Runs.{IsTextOfRun, may_be_full};
ghost use Rattle.scmi_modes.specs.Steps.{WritesHardware, WritesSteps};
ghost use Rattle.scmi_modes.specs.declared.kind.Kind.{Kind as KindOf};

use crate::any_mode::{AnyMode, Modes};
use crate::mode::Mode;
use crate::once::run_once_counted;
use crate::run_error::RunError;
use crate::steps::{run_hardware_counted, run_steps_counted};
use crate::threads::run_threads_counted;
use scmi_io::{CountedRead, CountedReader, Input, write_fault};
use scmi_threads::Gate;
use std::alloc::Global;
use std::io::{Read, Write};
use std::sync::Wait;
use std::thread::Threads;

/// Runs an input in the mode that its first line names, one of the five of `Mode`, and gives the
/// exit status: 0, or that of the fault, whose text is written as the last line. A fault that can't
/// be written gives status 1. How often the reader is read is a promise of `run_input`.
pub fn run<T: Threads + Wait + Sync, G: Gate, R: Read, W: Write>(
    rt: &T,
    alloc: Global,
    gate: &G,
    reader: &mut R,
    writer: &mut W,
) -> u8
    ensures named { result ≡ 0 → NamesMode Modes.Plain (R.remaining reader.old) }
    ensures answer { result ≡ 0 →
        AnswersOnce (R.remaining reader.old) (W.contents writer.old) (W.contents writer.new) }
    ensures text { result ≡ 0 →
        RunsThreads (R.remaining reader.old) (W.contents writer.old) (W.contents writer.new) }
    ensures steps { result ≡ 0 →
        RunsSteps (R.remaining reader.old) (W.contents writer.old) (W.contents writer.new) }
    ensures fault { result ≢ 0 → result ≢ 1 → EndsWithFault Modes.Plain (R.remaining reader.old)
        result (W.contents writer.old) (W.contents writer.new) }
{
    run_program(rt, alloc, gate, Modes::Plain, reader, writer)
}

/// As `run`, in a mode among these.
pub fn run_program<T: Threads + Wait + Sync, G: Gate, R: Read, W: Write>(
    rt: &T,
    alloc: Global,
    gate: &G,
    modes: Modes,
    reader: &mut R,
    writer: &mut W,
) -> u8
    ensures named { result ≡ 0 → NamesMode modes (R.remaining reader.old) }
    ensures answer { result ≡ 0 →
        AnswersOnce (R.remaining reader.old) (W.contents writer.old) (W.contents writer.new) }
    ensures text { result ≡ 0 →
        RunsThreads (R.remaining reader.old) (W.contents writer.old) (W.contents writer.new) }
    ensures steps { result ≡ 0 →
        RunsSteps (R.remaining reader.old) (W.contents writer.old) (W.contents writer.new) }
    ensures hardware { result ≡ 0 →
        RunsHardware (R.remaining reader.old) (W.contents writer.old) (W.contents writer.new) }
    ensures plain { result ≡ 0 → modes ≡ Modes.Plain → NamesNoHardware (R.remaining reader.old) }
    ensures fault { result ≢ 0 → result ≢ 1 → EndsWithFault modes (R.remaining reader.old) result
        (W.contents writer.old) (W.contents writer.new) }
{
    let mut input = Input::new(CountedReader::new(reader));
    run_input(rt, alloc, gate, modes, &mut input, writer)
}

/// The same of a reader that counts. The first line and what follows it take at most
/// `INPUT_BYTES + 1` reads each, and a read that fails is the last.
pub fn run_input<T: Threads + Wait + Sync, G: Gate, R: CountedRead + Drop, W: Write>(
    rt: &T,
    alloc: Global,
    gate: &G,
    modes: Modes,
    input: &mut Input<R>,
    writer: &mut W,
) -> u8
    ensures named { result ≡ 0 → NamesMode modes input.old.left }
    ensures answer { result ≡ 0 →
        AnswersOnce input.old.left (W.contents writer.old) (W.contents writer.new) }
    ensures text { result ≡ 0 →
        RunsThreads input.old.left (W.contents writer.old) (W.contents writer.new) }
    ensures steps { result ≡ 0 →
        RunsSteps input.old.left (W.contents writer.old) (W.contents writer.new) }
    ensures hardware { result ≡ 0 →
        RunsHardware input.old.left (W.contents writer.old) (W.contents writer.new) }
    ensures plain { result ≡ 0 → modes ≡ Modes.Plain → NamesNoHardware input.old.left }
    ensures fault { result ≢ 0 → result ≢ 1 → EndsWithFault modes input.old.left result
        (W.contents writer.old) (W.contents writer.new) }
    ensures reads { input.new.reads ≤ input.old.reads + 2 * (INPUT_BYTES + 1) }
    ensures stops { input.old.since_failure ≡ 0 → input.new.since_failure ≤ 1 }
{
    match run_mode(rt, alloc, gate, modes, input, writer) {
        Ok(()) => 0,
        Err(RunError::Write) => RunError::Write.status(),
        Err(fault) => write_fault(writer, &fault, fault.status()),
    }
}

fn run_mode<T: Threads + Wait + Sync, G: Gate, R: CountedRead + Drop, W: Write>(
    rt: &T,
    alloc: Global,
    gate: &G,
    modes: Modes,
    input: &mut Input<R>,
    writer: &mut W,
) -> Result<(), RunError>
    ensures named { OnOk result (NamesMode modes input.old.left) }
    ensures answer { OnOk result
        (AnswersOnce input.old.left (W.contents writer.old) (W.contents writer.new)) }
    ensures text { OnOk result
        (RunsThreads input.old.left (W.contents writer.old) (W.contents writer.new)) }
    ensures steps { OnOk result
        (RunsSteps input.old.left (W.contents writer.old) (W.contents writer.new)) }
    ensures hardware { OnOk result
        (RunsHardware input.old.left (W.contents writer.old) (W.contents writer.new)) }
    ensures plain { OnOk result (modes ≡ Modes.Plain → NamesNoHardware input.old.left) }
    ensures faults { IfErr result (λ e.
        IfSome input.old.left (λ input. IsFaultOfRun modes input e)) }
    ensures kept { IfErr result (λ e. status_of e ≡ 2 → writer.new ≡ writer.old) }
    ensures reads { input.new.reads ≤ input.old.reads + 2 * (INPUT_BYTES + 1) }
    ensures stops { StopsAtFailure result input.old.since_failure input.new.since_failure }
{
    let line = input.read_first_line()?;
    let mode = modes.of_line(&line).ok_or(RunError::Mode)?;
    run_in(rt, alloc, gate, mode, input, writer)
}

/// Runs what is left of an input in this mode.
fn run_in<T: Threads + Wait + Sync, G: Gate, R: CountedRead, W: Write>(
    rt: &T,
    alloc: Global,
    gate: &G,
    mode: AnyMode,
    reader: &mut R,
    writer: &mut W,
) -> Result<(), RunError>
    ensures once { OnOk result (mode ≡ AnyMode.Plain Mode.Once → IfSome (R.remaining reader.old)
        (λ input. IsAnswerTo input (W.contents writer.old) (W.contents writer.new))) }
    ensures threads { OnOk result ((kind : KindOf) → mode ≡ AnyMode.Plain (Mode.Threads kind) →
        IsTextOfRun (may_be_full kind) (R.remaining reader.old) (W.contents writer.old)
        (W.contents writer.new)) }
    ensures steps { OnOk result ((kind : KindOf) → mode ≡ AnyMode.Plain (Mode.Steps kind) →
        WritesSteps (R.remaining reader.old) kind (W.contents writer.old)
        (W.contents writer.new)) }
    ensures hardware { OnOk result ((kind : KindOf) → mode ≡ AnyMode.Hardware kind →
        WritesHardware (R.remaining reader.old) kind (W.contents writer.old)
        (W.contents writer.new)) }
    ensures faults { IfErr result (λ e.
        IfSome (R.remaining reader.old) (λ input. IsFaultIn mode input e)) }
    ensures kept { IfErr result (λ e. status_of e ≡ 2 → writer.new ≡ writer.old) }
    ensures reads { R.reads reader.new ≤ R.reads reader.old + (INPUT_BYTES + 1) }
    ensures stops { StopsAtFailure result (R.since_failure reader.old)
        (R.since_failure reader.new) }
{
    match mode {
        AnyMode::Plain(Mode::Once) => run_once_counted(alloc, reader, writer),
        AnyMode::Plain(Mode::Steps(kind)) => run_steps_counted(alloc, reader, writer, kind),
        AnyMode::Plain(Mode::Threads(kind)) => run_threads_counted(
            rt, alloc, gate, reader, writer, kind,
        ),
        AnyMode::Hardware(kind) => run_hardware_counted(alloc, reader, writer, kind),
    }
}
