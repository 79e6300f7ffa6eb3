//! The modes `threads rings` and `threads words`: a board and a script for each agent, each in a
//! thread of its own.
ghost use Rattle.std.specs.Prelude.{◌≡◌, ◌≤◌, ◌+◌, ◌⊎◌, None, Some, length, Ok, IfErr, IfOk, IfSome, IsErrOf, MatchResult, OnOk, IsTrue};
ghost use Rattle.std.specs.List.{All};
ghost use Rattle.std.specs.Io.KnownBytes.{Appends};
ghost use Rattle.scmi_link.specs.Scripts.{AreScriptsOf};
ghost use Rattle.scmi_modes.specs.Reads.{StopsAtFailure};
ghost use Rattle.scmi_modes.specs.RunError.{status_of};
ghost use Rattle.scmi_text.specs.ScriptText.{scripts_of};
ghost use Rattle.scmi_modes.specs.Input.{FailsInput, IsFaultOrLimit, scripts_of_input};
ghost use Rattle.scmi_modes.specs.Runs.{IsTextOfAnyRun, IsTextOfEndedRun, IsTextOfRun, IsTextOfStoppedRun, logs_text, may_be_full};
ghost use Rattle.scmi_io.specs.declared.input.TheConstants.{INPUT_BYTES};

use crate::agents::run_agents;
use crate::kind::Kind;
use crate::run_error::RunError;
use scmi_board::{Lines, read_board};
use scmi_io::{CountedRead, CountedReader, read_rest};
use scmi_link::{Channel, RingChannel};
use scmi_plan::Plan;
use scmi_text::{read_scripts, write_script_lines};
use scmi_threads::{AgentLog, Gate, Outcome, Script, Stop};
use scmi_words::WordChannel;
use std::alloc::Global;
use std::io::{Read, Write};
use std::sync::Wait;
use std::thread::Threads;

/// Reads a board and the scripts of its agents, runs them all at once, and writes the lines of each
/// agent, by rising number. `Size`, `Read`, `Board`, `Script` and `Plan` if the input is rejected;
/// after each of these nothing is written. `Limit` if a script met a limit, and `Memory`, which
/// goes before it, when out of memory: after these the lines so far are written. `Write` if the
/// output fails. How often the reader is read is a promise of `run_threads_counted`.
pub fn run_threads<T: Threads + Wait + Sync, G: Gate, R: Read, W: Write>(
    rt: &T,
    alloc: Global,
    gate: &G,
    reader: &mut R,
    writer: &mut W,
    kind: Kind,
) -> Result<(), RunError>
    ensures text { OnOk result (IsTextOfRun (may_be_full kind) (R.remaining reader.old)
        (W.contents writer.old) (W.contents writer.new)) }
    ensures limit { IsErrOf result RunError.Limit →
        IsTextOfStoppedRun (may_be_full kind) (R.remaining reader.old) (W.contents writer.old)
        (W.contents writer.new) }
    ensures memory { IsErrOf result RunError.Memory → (writer.new ≡ writer.old) ⊎
        IsTextOfStoppedRun (may_be_full kind) (R.remaining reader.old) (W.contents writer.old)
        (W.contents writer.new) }
    ensures faults { IfErr result (λ e. IfSome (R.remaining reader.old)
        (λ input. IsFaultOrLimit input (scripts_of_input input) e)) }
    ensures kept { IfErr result (λ e. status_of e ≡ 2 → writer.new ≡ writer.old) }
{
    run_threads_counted(
        rt,
        alloc,
        gate,
        &mut CountedReader::new(reader),
        writer,
        kind,
    )
}

/// The same of a reader that counts, by at most `INPUT_BYTES + 1` reads. A read that fails is the
/// last.
pub fn run_threads_counted<T: Threads + Wait + Sync, G: Gate, R: CountedRead, W: Write>(
    rt: &T,
    alloc: Global,
    gate: &G,
    reader: &mut R,
    writer: &mut W,
    kind: Kind,
) -> Result<(), RunError>
    ensures text { OnOk result (IsTextOfRun (may_be_full kind) (R.remaining reader.old)
        (W.contents writer.old) (W.contents writer.new)) }
    ensures limit { IsErrOf result RunError.Limit →
        IsTextOfStoppedRun (may_be_full kind) (R.remaining reader.old) (W.contents writer.old)
        (W.contents writer.new) }
    ensures memory { IsErrOf result RunError.Memory → (writer.new ≡ writer.old) ⊎
        IsTextOfStoppedRun (may_be_full kind) (R.remaining reader.old) (W.contents writer.old)
        (W.contents writer.new) }
    ensures faults { IfErr result (λ e. IfSome (R.remaining reader.old)
        (λ input. IsFaultOrLimit input (scripts_of_input input) e)) }
    ensures kept { IfErr result (λ e. status_of e ≡ 2 → writer.new ≡ writer.old) }
    ensures reads { R.reads reader.new ≤ R.reads reader.old + (INPUT_BYTES + 1) }
    ensures stops { StopsAtFailure result (R.since_failure reader.old)
        (R.since_failure reader.new) }
{
    let bytes = read_rest(alloc, reader)?;
    let (plan, scripts) = read_input(alloc, &bytes)?;
    run_over(rt, alloc, gate, kind, plan, &scripts, writer)
}

/// The board and the scripts that follow the first line.
fn read_input(alloc: Global, bytes: &[u8]) -> Result<(Plan, Vec<Script>), RunError>
    ensures scripts { IfOk result (λ read. AreScriptsOf (length read.0.agents) read.1.items) }
    ensures input { MatchResult result
        (λ read. scripts_of_input bytes.now ≡ Ok (read.0, scripts_of read.1.items))
        (λ e. FailsInput e (scripts_of_input bytes.now)) }
{
    let mut lines = Lines::new(bytes);
    let board = read_board(alloc, &mut lines)?;
    let scripts = read_scripts(alloc, &mut lines, board.agent_count()?)?;
    let plan = Plan::check(alloc, &board)?;
    Ok((plan, scripts))
}

/// Runs scripts over channels of this kind.
fn run_over<T: Threads + Wait + Sync, G: Gate, W: Write>(
    rt: &T,
    alloc: Global,
    gate: &G,
    kind: Kind,
    plan: Plan,
    scripts: &[Script],
    writer: &mut W,
) -> Result<(), RunError>
    requires scripts { AreScriptsOf (length plan.agents) scripts.now }
    ensures text { OnOk result (IsTextOfEndedRun (may_be_full kind) plan scripts.now
        (W.contents writer.old) (W.contents writer.new)) }
    ensures limit { IsErrOf result RunError.Limit → IsTextOfAnyRun (may_be_full kind) plan
        scripts.now (W.contents writer.old) (W.contents writer.new) }
    ensures memory { IsErrOf result RunError.Memory → (writer.new ≡ writer.old) ⊎
        IsTextOfAnyRun (may_be_full kind) plan scripts.now (W.contents writer.old)
        (W.contents writer.new) }
    ensures errors { IfErr result (λ e. ¬ (status_of e ≡ 2)) }
{
    match kind {
        Kind::Rings => write_run::<RingChannel, T, G, W>(rt, alloc, gate, plan, scripts, writer),
        Kind::Words => write_run::<WordChannel, T, G, W>(rt, alloc, gate, plan, scripts, writer),
    }
}

/// Runs scripts over channels of one kind, and writes the lines of each agent, by rising number. The
/// only errors are `Limit`, `Memory` and `Write`.
fn write_run<C: Channel, T: Threads + Wait + Sync, G: Gate, W: Write>(
    rt: &T,
    alloc: Global,
    gate: &G,
    plan: Plan,
    scripts: &[Script],
    writer: &mut W,
) -> Result<(), RunError>
    requires scripts { AreScriptsOf (length plan.agents) scripts.now }
    ensures text { OnOk result (IsTextOfEndedRun C.FULL plan scripts.now
        (W.contents writer.old) (W.contents writer.new)) }
    ensures limit { IsErrOf result RunError.Limit → IsTextOfAnyRun C.FULL plan scripts.now
        (W.contents writer.old) (W.contents writer.new) }
    ensures memory { IsErrOf result RunError.Memory → (writer.new ≡ writer.old) ⊎
        IsTextOfAnyRun C.FULL plan scripts.now (W.contents writer.old) (W.contents writer.new) }
    ensures errors { IfErr result (λ e. ¬ (status_of e ≡ 2)) }
{
    let agents = plan.agents();
    let outcome = run_agents::<C, G, T>(rt, alloc, gate, plan, scripts)?;
    write_logs(writer, agents, &outcome.logs)?;
    verdict(&outcome)
}

/// Writes the lines of each agent, numbered from 1.
fn write_logs<W: Write>(writer: &mut W, agents: u32, logs: &[AgentLog]) -> Result<(), RunError>
    requires { length logs.now ≡ agents }
    ensures text { OnOk result (Appends (W.contents writer.old) (W.contents writer.new)
        (logs_text 1 logs.now)) }
    ensures errors { IfErr result (λ e. e ≡ RunError.Write) }
{
    'logs: for i in 0..agents {
        let Ok(()) = write_script_lines(writer, i + 1, &logs[i as usize].lines) else {
            return Err(RunError::Write);
        };
    }
    Ok(())
}

/// What is to be reported at the end: out of memory, or else that a limit was met.
fn verdict(outcome: &Outcome) -> Result<(), RunError>
    ensures ok { OnOk result (All (λ log. log.stopped ≡ None) outcome.now.logs.items) }
    ensures errors { IfErr result (λ e. ¬ (status_of e ≡ 2)) }
{
    if outcome.memory || any_stopped(&outcome.logs, Stop::Memory) {
        return Err(RunError::Memory);
    }
    if any_stopped(&outcome.logs, Stop::Limit) {
        return Err(RunError::Limit);
    }
    Ok(())
}

/// Whether a script ended in this way before its last line.
fn any_stopped(logs: &[AgentLog], stop: Stop) -> bool
    ensures { ¬ (IsTrue result) → All (λ log. ¬ (log.stopped ≡ Some stop)) logs.now }
{
    for log in logs {
        if log.stopped == Some(stop) {
            return true;
        }
    }
    false
}
