//! A run from its input to its exit status.
ghost use Rattle.std.specs.Prelude.{◌≡◌, ◌≢◌, ◌≤◌, ◌+◌, ◌*◌, ◌⊎◌, IfErr, IfNone, IfOk, IfSome, OnOk};
ghost use Rattle.scmi_io.specs.declared.input.TheConstants.{INPUT_BYTES};
ghost use Rattle.scmi_modes.specs.AnyMode.{Takes, any_text_of};
ghost use Rattle.scmi_modes.specs.declared.any_mode.AnyMode.TheVariants as any;
ghost use Rattle.scmi_modes.specs.declared.any_mode.Modes.TheVariants as modes;
ghost use Rattle.scmi_modes.specs.declared.mode.Mode.TheVariants as mode;
ghost use Rattle.scmi_modes.specs.Reads.{StopsAtFailure};
ghost use Rattle.std.specs.Io.KnownBytes.{Appends};
ghost use Rattle.scmi_chart.specs.Diagram.{diagram_text};
ghost use Rattle.scmi_chart.specs.declared.drawing.Form.TheVariants as Form;
ghost use Rattle.scmi_chart.specs.Picture.{IsChartOf, IsDiagram, ShowsInput};

use crate::chart::Chart;
use crate::diagram::write_diagram;
use crate::picture::write_chart;
use crate::run::chart_of;
use crate::threads::chart_of_threads;
use scmi_io::{CountedRead, CountedReader, Input, read_rest, write_fault};
use scmi_modes::{AnyMode, Mode, Modes, RunError, ScriptKind};
use scmi_threads::Gate;
use std::alloc::Global;
use std::io;
use std::io::{Read, Write};
use std::sync::Wait;
use std::thread::Threads;

/// In which form a chart is written.
#[derive(Clone, Copy)]
pub enum Form {
    /// A picture, which browsers show.
    Svg,
    /// A diagram in the text of Mermaid, which GitHub and most editors draw.
    Mermaid,
}

/// Draws the run of an input in a form and gives the exit status: 0, or that of the error, whose
/// text is written as the last line. A fault that can't be written gives status 1.
///
/// `written` is what follows the first line as somebody wrote it, if that is not what is run:
/// beside each step of an SVG stands its line of `written`.
pub fn run_draw<T: Threads + Wait + Sync, G: Gate, R: Read, W: Write>(
    rt: &T,
    alloc: Global,
    gate: &G,
    reader: &mut R,
    writer: &mut W,
    form: Form,
    written: Option<&[u8]>,
) -> u8
    ensures diagram { form ≡ Form.Mermaid → result ≡ 0 →
        IsDiagram (R.remaining reader.old) (W.contents writer.old) (W.contents writer.new) }
{
    let mut input = Input::new(CountedReader::new(reader));
    draw_input(rt, alloc, gate, &mut input, writer, form, written)
}

/// The same of a reader that counts. The first line and what follows it take at most
/// `INPUT_BYTES + 1` reads each, and a read that fails is the last.
pub fn draw_input<T: Threads + Wait + Sync, G: Gate, R: CountedRead + Drop, W: Write>(
    rt: &T,
    alloc: Global,
    gate: &G,
    input: &mut Input<R>,
    writer: &mut W,
    form: Form,
    written: Option<&[u8]>,
) -> u8
    ensures diagram { form ≡ Form.Mermaid → result ≡ 0 →
        IsDiagram input.old.left (W.contents writer.old) (W.contents writer.new) }
    ensures reads { input.new.reads ≤ input.old.reads + 2 * (INPUT_BYTES + 1) }
    ensures stops { input.old.since_failure ≡ 0 → input.new.since_failure ≤ 1 }
{
    match draw(rt, alloc, gate, input, writer, form, written) {
        Ok(()) => 0,
        Err(RunError::Write) => RunError::Write.status(),
        Err(fault) => write_fault(writer, &fault, fault.status()),
    }
}

/// Reads a board and a script, or the scripts of its agents, runs it, and writes the chart of the
/// run in a form. The errors are those of `read_chart`: after each of these nothing is written.
/// Then `Write` if the output fails: a part may then be written.
pub fn draw<T: Threads + Wait + Sync, G: Gate, R: CountedRead + Drop, W: Write>(
    rt: &T,
    alloc: Global,
    gate: &G,
    input: &mut Input<R>,
    writer: &mut W,
    form: Form,
    written: Option<&[u8]>,
) -> Result<(), RunError>
    ensures diagram { form ≡ Form.Mermaid → OnOk result
        (IsDiagram input.old.left (W.contents writer.old) (W.contents writer.new)) }
    ensures kept { IfErr result (λ e. e ≢ RunError.Write → writer.new ≡ writer.old) }
    ensures reads { input.new.reads ≤ input.old.reads + 2 * (INPUT_BYTES + 1) }
    ensures stops { StopsAtFailure result input.old.since_failure input.new.since_failure }
{
    let chart = read_chart(rt, alloc, gate, input, written)?;
    match write_form(writer, &chart, form) {
        Ok(()) => Ok(()),
        Err(_) => Err(RunError::Write),
    }
}

/// Writes a chart in a form. The error is the writer's; a part may then be written.
fn write_form<W: Write>(writer: &mut W, chart: &Chart, form: Form) -> io::Result<()>
    ensures { form ≡ Form.Mermaid → OnOk result
        (Appends (W.contents writer.old) (W.contents writer.new) (diagram_text chart.now)) }
{
    match form {
        Form::Svg => write_chart(writer, chart),
        Form::Mermaid => write_diagram(writer, chart),
    }
}

/// The chart of the run of a board and a script, or of the scripts of its agents. `Mode`, `Size`,
/// `Read`, `Board`, `Script` and `Plan` if the input is rejected, and `Memory` if out of memory.
pub fn read_chart<T: Threads + Wait + Sync, G: Gate, R: CountedRead + Drop>(
    rt: &T,
    alloc: Global,
    gate: &G,
    input: &mut Input<R>,
    written: Option<&[u8]>,
) -> Result<Chart, RunError>
    ensures shown { IfOk result (IsChartOf input.old.left) }
    ensures reads { input.new.reads ≤ input.old.reads + 2 * (INPUT_BYTES + 1) }
    ensures stops { StopsAtFailure result input.old.since_failure input.new.since_failure }
{
    let line = input.read_first_line()?;
    let mode = drawn_mode(&line).ok_or(RunError::Mode)?;
    let bytes = read_rest(alloc, input)?;
    let chart = chart_in(rt, alloc, gate, mode, &bytes, written)?;
    Ok(chart)
}

/// The mode that a first line names, exactly, if its runs are drawn.
fn drawn_mode(line: &[u8]) -> Option<AnyMode>
    ensures some { IfSome result (λ mode. line.now ≡ any_text_of mode) }
    ensures none { IfNone result ((line.now ≡ any_text_of (any.Plain mode.Once))
        ⊎ ((mode : AnyMode) → Takes modes.ForPeople mode → line.now ≢ any_text_of mode)) }
{
    match Modes::ForPeople.of_line(line)? {
        AnyMode::Plain(Mode::Once) => None,
        mode => Some(mode),
    }
}

/// The chart of the run of what follows the first line of an input in this mode.
fn chart_in<T: Threads + Wait + Sync, G: Gate>(
    rt: &T,
    alloc: Global,
    gate: &G,
    mode: AnyMode,
    bytes: &[u8],
    written: Option<&[u8]>,
) -> Result<Chart, RunError>
    ensures shown { IfOk result (ShowsInput mode bytes.now) }
{
    match mode {
        AnyMode::Plain(Mode::Once) => Err(RunError::Mode),
        AnyMode::Plain(Mode::Steps(kind)) => {
            chart_of(alloc, ScriptKind::Plain, kind, bytes, written)
        }
        AnyMode::Plain(Mode::Threads(kind)) => chart_of_threads(rt, alloc, gate, kind, bytes),
        AnyMode::Hardware(kind) => chart_of(alloc, ScriptKind::Hardware, kind, bytes, written),
    }
}
