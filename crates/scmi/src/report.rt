//! What is reported on standard error of a run that failed.

use crate::given::is_hardware;
use crate::report_board::report_board;
use crate::report_unknown::report_unknown;
use crate::request::{Request, Task};
use scmi_explain::{Expected, Explanation, Fault, Kept, LastLine, explain, split_first};
use scmi_io::FAILED_OUTPUT;
use scmi_live::in_hertz;
use std::alloc::Global;
use std::io::{Eprint, Error, ErrorKind, Read, Write};

/// Reports what is wrong with the input of this name, if a run's last line is a fault.
pub fn report_input<R: Read + Drop>(
    rt: &impl Eprint,
    alloc: Global,
    request: Request,
    name: &str,
    input: &Kept<R>,
    last_line: &[u8],
) {
    let Some(fault) = fault_of(request, last_line) else {
        return;
    };
    if fault == Fault::Area && matches!(request, Request::Bytes(_)) {
        return report_bytes(rt, name, input.bytes());
    }
    if matches!(request, Request::Do(Task::Table)) {
        return report_board(rt, alloc, name, input.bytes(), fault, input.error(), "");
    }
    let hertz = script_in_hertz(alloc, input.bytes());
    let text = hertz.as_deref().unwrap_or(input.bytes());
    if report_unknown(rt, alloc, name, text, fault) {
        return;
    }
    let found = explain(alloc, expected_of(request), text, fault);
    report_found(rt, name, fault, found, input.error());
}

/// Reports what was found for a fault in the input of this name; of a failed read, its error too.
pub(crate) fn report_found(
    rt: &impl Eprint,
    name: &str,
    fault: Fault,
    found: Explanation<'_>,
    error: Option<Error>,
) {
    let _ = match error {
        Some(error) if fault == Fault::Read => eprintln!(rt; "{name}{found}: {error}"),
        _ => eprintln!(rt; "{name}{found}"),
    };
}

/// The text of a script of a mode `hardware` as it was read: its board may have rates with units.
fn script_in_hertz(alloc: Global, text: &[u8]) -> Option<Vec<u8>> {
    if is_hardware(split_first(text).0) {
        in_hertz(alloc, text).ok()
    } else {
        None
    }
}

/// Reports that these bytes of an input have no area.
fn report_bytes(rt: &impl Eprint, name: &str, bytes: &[u8]) {
    let _ = if is_text(bytes) {
        eprintln!(rt; "{name}: this is text, not bytes of memory; decode it without -b")
    } else {
        eprintln!(rt;
            "{name}: none of the bytes are an area; --size N gives the size of each, \
            --offset N the place of the first"
        )
    };
}

/// Whether bytes are some text, as dumps are.
fn is_text(bytes: &[u8]) -> bool {
    for byte in bytes {
        if !matches!(*byte, b' '..=b'~' | b'\n' | b'\r' | b'\t') {
            return false;
        }
    }
    !bytes.is_empty()
}

/// Why a run failed, by its last line. A decode that failed after its last dump found no area, and
/// has no line of a fault.
fn fault_of(request: Request, last_line: &[u8]) -> Option<Fault> {
    match Fault::of_line(last_line) {
        None if is_decode(request) => Some(Fault::Area),
        fault => fault,
    }
}

/// Whether dumps or bytes are decoded.
fn is_decode(request: Request) -> bool {
    matches!(
        request,
        Request::Do(Task::Decode) | Request::Dumps(_) | Request::Bytes(_)
    )
}

/// Flushes the output of a run that ends with this status, and gives the exit status: the same, or
/// `FAILED_OUTPUT` if the output failed. That is reported, with the writer's error; nothing if the
/// output's reader went away.
pub fn report_output<W: Write + Drop>(
    rt: &impl Eprint,
    output: &mut LastLine<W>,
    status: u8,
) -> u8 {
    if output.flush().is_ok() && status != FAILED_OUTPUT {
        return status;
    }
    report_lost(rt, output.error());
    FAILED_OUTPUT
}

/// Reports that the output failed, with this error of its writer.
fn report_lost(rt: &impl Eprint, error: Option<Error>) {
    let _ = match error {
        Some(error) if error.kind() == ErrorKind::BrokenPipe => Ok(()),
        Some(error) => eprintln!(rt; "scmi: the output could not be written: {error}"),
        None => eprintln!(rt; "scmi: the output could not be written"),
    };
}

/// What the input of a task should be.
fn expected_of(request: Request) -> Expected {
    match request {
        _ if is_decode(request) => Expected::Dumps,
        Request::Do(Task::Chart) | Request::Diagram => Expected::Drawing,
        _ => Expected::Session,
    }
}
