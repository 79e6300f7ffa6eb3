//! Does what is asked for, with the files that are named.

use crate::STANDARD_INPUT;
use crate::asked::{Asked, STANDARD};
use crate::painted::Painted;
use crate::read_as::ReadAs;
use crate::refusal::{lack_board, refuse_file, refuse_standard};
use crate::report::{report_input, report_output};
use crate::request::{Request, Task};
use crate::run::run_request;
use crate::serve_check::{AskedCheck, serve_check};
use crate::serve_session::{AskedSession, serve_session};
use crate::terminal::Terminal;
use scmi_chart::Form;
use scmi_check::Style;
use scmi_explain::{Kept, LastLine};
use scmi_io::FAILED_OUTPUT;
use scmi_modes::RunError;
use std::alloc::Global;
use std::fs::{self, Files};
use std::io::{self, BufWriter, Eprint, Input, Print, Read, Write};
use std::sync::Wait;
use std::thread::Threads;

/// Does what is asked for, and gives the exit status.
pub fn serve<T: Threads + Wait + Sync + Files + Print + Eprint + Input>(
    rt: &T,
    alloc: Global,
    asked: Asked<'_>,
    terminal: Terminal,
) -> u8 {
    if terminal.is_typed && reads_standard(asked) {
        let _ = eprintln!(rt;
            "scmi: reading standard input; Ctrl-D ends it, and scmi --help shows how scmi is used"
        );
    }
    let is_colored = terminal.is_colored && !is_text(asked.request);
    let Some(name) = asked.first else {
        return match asked.request {
            Request::Do(task @ (Task::Session | Task::Check)) => lack_board(rt, task),
            request => { serve_standard(rt, alloc, request, is_colored) }
        };
    };
    if let Some(check) = check_asked(asked, name, terminal) {
        return serve_check(rt, alloc, check);
    }
    if name == STANDARD {
        return match asked.request {
            Request::Do(Task::Session) => refuse_standard(rt, "BOARD", "each step"),
            request => { serve_standard(rt, alloc, request, is_colored) }
        };
    }
    match fs::open(rt, name) {
        Ok(file) if matches!(asked.request, Request::Do(Task::Session)) => {
            let asked = AskedSession {
                board: name,
                save: asked.save,
                terminal,
            };
            serve_session(rt, alloc, asked, file, rt.reader())
        }
        Ok(file) => serve_input(rt, alloc, asked.request, is_colored, name, file),
        Err(error) => refuse_file(rt, name, &error),
    }
}

/// What is asked for of a board and a record, if it is a check or a picture of the record.
fn check_asked<'a>(asked: Asked<'a>, board: &'a str, terminal: Terminal) -> Option<AskedCheck<'a>> {
    let picture = picture_asked(asked);
    if picture.is_none() && !matches!(asked.request, Request::Do(Task::Check)) {
        return None;
    }
    Some(AskedCheck {
        picture,
        style: asked.style,
        is_colored: terminal.is_colored && asked.style == Style::Plain,
        is_watched: terminal.is_watched,
        protocols: asked.protocols,
        unseen: asked.unseen,
        board,
        record: asked.second,
    })
}

/// The form of the picture of a record, if a chart is asked for of a board and a record.
fn picture_asked(asked: Asked<'_>) -> Option<Form> {
    asked.second?;
    match asked.request {
        Request::Do(Task::Chart) => Some(Form::Svg),
        Request::Diagram => Some(Form::Mermaid),
        _ => None,
    }
}

/// Whether standard input is read to its end. A session says of itself that it waits for lines.
fn reads_standard(asked: Asked<'_>) -> bool {
    match asked.request {
        Request::Do(Task::Session) => false,
        Request::Do(Task::Check) => asked.first.is_some() && is_standard(asked.second),
        _ if picture_asked(asked).is_some() => is_standard(asked.second),
        request => !is_text(request) && is_standard(asked.first),
    }
}

/// Whether an input is standard input, by the name of its file.
fn is_standard(name: Option<&str>) -> bool {
    match name {
        Some(name) => name == STANDARD,
        None => true,
    }
}

/// Whether a request asks for a text of the program's own, in which no word shows a fault.
fn is_text(request: Request) -> bool {
    matches!(
        request,
        Request::Do(Task::Help | Task::Version) | Request::HelpOn(_)
    )
}

/// Whether the result of a task is a file of its own, into which no fault belongs.
fn is_whole(request: Request) -> bool {
    matches!(
        request,
        Request::Do(Task::Chart | Task::Table) | Request::Diagram
    )
}

/// Does what is asked for with standard input, and gives the exit status.
fn serve_standard<T: Threads + Wait + Sync + Print + Eprint + Input>(
    rt: &T,
    alloc: Global,
    request: Request,
    is_colored: bool,
) -> u8 {
    // A terminal goes on behind its end, so nothing is read of it after that.
    let reader = rt.reader().chain(io::empty());
    serve_input(rt, alloc, request, is_colored, STANDARD_INPUT, reader)
}

/// Does what is asked for with an input of this name, and gives the exit status. What is wrong with
/// the input, or the output, is reported on standard error.
fn serve_input<T: Threads + Wait + Sync + Print + Eprint, R: Read + Drop>(
    rt: &T,
    alloc: Global,
    request: Request,
    is_colored: bool,
    name: &str,
    reader: R,
) -> u8 {
    if is_whole(request) {
        return serve_whole(rt, alloc, request, name, reader);
    }
    // If there is no memory for a buffer, the output goes straight out.
    match BufWriter::new(alloc, io::writer(rt)) {
        Ok(writer) => {
            serve_on(
                rt,
                alloc,
                request,
                name,
                reader,
                Painted::new(writer, is_colored),
            )
        }
        Err(_) => {
            let writer = Painted::new(io::writer(rt), is_colored);
            serve_on(rt, alloc, request, name, reader, writer)
        }
    }
}

/// The same with this output.
fn serve_on<T: Threads + Wait + Sync + Eprint, R: Read + Drop, W: Write + Drop>(
    rt: &T,
    alloc: Global,
    request: Request,
    name: &str,
    reader: R,
    writer: W,
) -> u8 {
    let mut input = Kept::new(alloc, reader);
    let mut output = LastLine::new(writer);
    let mut readings = ReadAs { rt, name };
    let status = run_request(rt, alloc, request, &mut input, &mut output, &mut readings);
    let status = report_output(rt, &mut output, status);
    if status != 0 && status != FAILED_OUTPUT {
        report_input(rt, alloc, request, name, &input, output.line());
    }
    status
}

/// The same for a result that is written whole or not at all.
fn serve_whole<T: Threads + Wait + Sync + Print + Eprint, R: Read + Drop>(
    rt: &T,
    alloc: Global,
    request: Request,
    name: &str,
    reader: R,
) -> u8 {
    let mut input = Kept::new(alloc, reader);
    let mut whole = Vec::new(alloc);
    let mut readings = ReadAs { rt, name };
    match run_request(rt, alloc, request, &mut input, &mut whole, &mut readings) {
        0 => write_whole(rt, &whole),
        // A vector refuses bytes only if there is no memory for them.
        FAILED_OUTPUT => {
            let fault = RunError::Memory;
            report_input(rt, alloc, request, name, &input, b"fault memory");
            fault.status()
        }
        status => {
            report_input(rt, alloc, request, name, &input, without_feed(&whole));
            status
        }
    }
}

/// Writes a result, and gives the exit status.
pub(crate) fn write_whole<T: Print + Eprint>(rt: &T, whole: &[u8]) -> u8 {
    let mut output = LastLine::new(io::writer(rt));
    let status = match output.write_all(whole) {
        Ok(()) => 0,
        Err(_) => FAILED_OUTPUT,
    };
    report_output(rt, &mut output, status)
}

/// A line without its line feed.
pub(crate) fn without_feed(line: &[u8]) -> &[u8] {
    line.strip_suffix(b"\n").unwrap_or(line)
}
