//! A run by its request.
ghost use Rattle.std.specs.Prelude.{◌≡◌, ◌≢◌, true, false, List, ℕ, Some, IfSome};
ghost use Rattle.scmi_io.specs.Lines.{after_line, first_line, has_line_feed};
ghost use Rattle.scmi_live.specs.Hertz.{in_hertz};
ghost use Rattle.scmi.specs.TableRun.{HoldsBoard};
ghost use Rattle.scmi.specs.Given.{OfGiven, is_hardware};
ghost use Rattle.scmi.specs.Program.{Answers, AnswersOf};

use crate::given::{in_numbers, is_hardware, with_end};
use crate::refusal::WRONG_ARGUMENT;
use crate::request::{Request, Task};
use crate::rest::Rest;
use crate::table_run::run_table;
use crate::texts::write_text;
use scmi_chart::{Form, run_draw};
use scmi_decode::{Layout, Readings, run_bytes, run_decode};
use scmi_io::{CountedReader, Input, read_rest, write_fault};
use scmi_live::in_hertz;
use scmi_modes::{Modes, RunError, run_program};
use scmi_threads::OpenGate;
use std::alloc::Global;
use std::io::{Read, Write};
use std::sync::Wait;
use std::thread::Threads;

/// Does what is asked for, and gives the exit status: 0, or that of the error, which the last line
/// names. A text that can't be written gives status 1. `readings` is notified of how the areas of
/// dumps are read.
pub fn run_request<T: Threads + Wait + Sync, R: Read, W: Write, N: Readings>(
    rt: &T,
    alloc: Global,
    request: Request,
    reader: &mut R,
    writer: &mut W,
    readings: &mut N,
) -> u8
    ensures { result ≡ 0 →
        Answers request (R.remaining reader.old) (W.contents writer.old) (W.contents writer.new) }
{
    match request {
        Request::Do(Task::Run | Task::Chart) | Request::Diagram => {
            run_script(rt, alloc, request, reader, writer)
        }
        Request::Do(Task::Decode) => run_decode(alloc, Layout::Whole, reader, writer, readings),
        Request::Dumps(layout) => run_decode(alloc, layout, reader, writer, readings),
        Request::Bytes(layout) => run_bytes(alloc, layout, reader, writer),
        Request::Do(Task::Table) => write_tables(alloc, reader, writer),
        // Their boards are read from files.
        Request::Do(Task::Session | Task::Check) => WRONG_ARGUMENT,
        _ => match write_text(writer, request) {
            Ok(()) => 0,
            Err(_) => RunError::Write.status(),
        },
    }
}

/// Runs or draws the script of an input, with numbers in place of names if its mode is one of
/// `hardware`, and gives the exit status.
fn run_script<T: Threads + Wait + Sync, R: Read, W: Write>(
    rt: &T,
    alloc: Global,
    request: Request,
    reader: &mut R,
    writer: &mut W,
) -> u8
    ensures { result ≡ 0 → OfGiven (λ given. AnswersOf request given (W.contents writer.old)
        (W.contents writer.new)) (R.remaining reader.old) }
{
    let mut input = Input::new(CountedReader::new(reader));
    let mut line = Vec::new(alloc);
    match input.read_line(&mut line) {
        Ok(is_ended) => run_behind(rt, alloc, request, &line, is_ended, input, writer),
        Err(error) => fail(writer, RunError::from(error)),
    }
}

/// The same of an input whose first line was read, and whether a line feed ended it.
fn run_behind<T: Threads + Wait + Sync, R: Read, W: Write>(
    rt: &T,
    alloc: Global,
    request: Request,
    line: &[u8],
    is_ended: bool,
    input: Input<CountedReader<'_, R>>,
    writer: &mut W,
) -> u8
    ensures { result ≡ 0 → (bytes : List ℕ) → line.now ≡ first_line bytes
        → is_ended ≡ has_line_feed bytes → input.entry.left ≡ Some (after_line bytes)
        → OfGiven (λ given. AnswersOf request given (W.contents writer.old)
        (W.contents writer.new)) (Some bytes) }
{
    if is_hardware(line) {
        run_numbers(rt, alloc, request, line, input, writer)
    } else {
        run_rest(rt, alloc, request, line, is_ended, input, writer)
    }
}

/// The same in a mode `hardware`.
fn run_numbers<T: Threads + Wait + Sync, R: Read, W: Write>(
    rt: &T,
    alloc: Global,
    request: Request,
    line: &[u8],
    mut input: Input<CountedReader<'_, R>>,
    writer: &mut W,
) -> u8
    ensures { result ≡ 0 → (bytes : List ℕ) → line.now ≡ first_line bytes
        → input.entry.left ≡ Some (after_line bytes) → is_hardware line.now ≡ true
        → OfGiven (λ given. AnswersOf request given (W.contents writer.old)
        (W.contents writer.new)) (Some bytes) }
{
    let written = match read_rest(alloc, &mut input) {
        Ok(written) => written,
        Err(error) => return fail(writer, RunError::from(error)),
    };
    match in_numbers(alloc, line, &written) {
        Ok(given) => {
            let mut given = given.as_slice();
            run_given(rt, alloc, request, &mut given, writer, Some(&written))
        }
        Err(_) => fail(writer, RunError::Memory),
    }
}

/// The same in another mode.
fn run_rest<T: Threads + Wait + Sync, R: Read, W: Write>(
    rt: &T,
    alloc: Global,
    request: Request,
    line: &[u8],
    is_ended: bool,
    input: Input<CountedReader<'_, R>>,
    writer: &mut W,
) -> u8
    ensures { result ≡ 0 → (bytes : List ℕ) → line.now ≡ first_line bytes
        → is_ended ≡ has_line_feed bytes → input.entry.left ≡ Some (after_line bytes)
        → is_hardware line.now ≡ false
        → OfGiven (λ given. AnswersOf request given (W.contents writer.old)
        (W.contents writer.new)) (Some bytes) }
{
    match with_end(alloc, line, is_ended) {
        Ok(start) => {
            let mut given = start.as_slice().chain(Rest { input });
            run_given(rt, alloc, request, &mut given, writer, None)
        }
        Err(_) => fail(writer, RunError::Memory),
    }
}

/// Runs or draws a script of numbers, which was `written` so.
fn run_given<T: Threads + Wait + Sync, R: Read, W: Write>(
    rt: &T,
    alloc: Global,
    request: Request,
    reader: &mut R,
    writer: &mut W,
    written: Option<&[u8]>,
) -> u8
    ensures { result ≡ 0 → AnswersOf request (R.remaining reader.old) (W.contents writer.old)
        (W.contents writer.new) }
{
    match request {
        Request::Do(Task::Chart) => {
            run_draw(rt, alloc, &OpenGate, reader, writer, Form::Svg, written)
        }
        Request::Diagram => {
            run_draw(rt, alloc, &OpenGate, reader, writer, Form::Mermaid, written)
        }
        _ => run_program(rt, alloc, &OpenGate, Modes::ForPeople, reader, writer),
    }
}

/// Writes the tables of the board of an input, whose rates may have units, and gives the exit
/// status.
fn write_tables<R: Read, W: Write>(alloc: Global, reader: &mut R, writer: &mut W) -> u8
    ensures { result ≡ 0 → IfSome (R.remaining reader.old)
        (λ text. HoldsBoard (Some (in_hertz text))) }
{
    let text = match read_rest(alloc, &mut CountedReader::new(reader)) {
        Ok(text) => text,
        Err(error) => return fail(writer, RunError::from(error)),
    };
    match in_hertz(alloc, &text) {
        Ok(board) => run_table(alloc, &mut board.as_slice(), writer),
        Err(_) => fail(writer, RunError::Memory),
    }
}

/// Ends a run by the line of a fault, and gives the exit status.
fn fail<W: Write>(writer: &mut W, fault: RunError) -> u8
    ensures { result ≢ 0 }
{
    write_fault(writer, &fault, fault.status())
}
