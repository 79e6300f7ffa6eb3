//! A session of the program: its board from a file, and its lines from standard input.

use crate::STANDARD_INPUT;
use crate::opened::Opened;
use crate::painted::Painted;
use crate::refusal::{NO_FILE, refuse_saved};
use crate::report::{report_found, report_output};
use crate::report_board::report_board;
use crate::session::run_session;
use crate::teller::Teller;
use crate::terminal::Terminal;
use scmi_explain::{Expected, Fault, Kept, LastLine, explain};
use scmi_io::{FAILED_OUTPUT, INPUT_BYTES, write_fault};
use scmi_modes::RunError;
use std::alloc::Global;
use std::fs::{self, Files};
use std::io;
use std::io::{BufWriter, Eprint, Print, Read, Write};

/// How a session is asked for.
#[derive(Clone, Copy)]
pub struct AskedSession<'a> {
    /// The file of the board.
    pub board: &'a str,
    /// The file into which the session is saved as a script.
    pub save: Option<&'a str>,
    pub terminal: Terminal,
}

/// Answers the lines of a reader on the board of an opened file, and gives the exit status.
pub fn serve_session<T: Print + Eprint + Files, B: Read + Drop, R: Read + Drop>(
    rt: &T,
    alloc: Global,
    asked: AskedSession<'_>,
    file: B,
    reader: R,
) -> u8 {
    let mut file = Kept::new(alloc, file);
    match Opened::read(alloc, &mut file) {
        Ok(opened) => save(rt, alloc, asked, &opened, reader),
        Err(fault) => refuse_board(rt, alloc, asked.board, &file, fault),
    }
}

/// Refuses the file of a board, and gives the exit status.
fn refuse_board<T: Print + Eprint, B: Read + Drop>(
    rt: &T,
    alloc: Global,
    name: &str,
    file: &Kept<B>,
    fault: RunError,
) -> u8 {
    let mut writer = LastLine::new(io::writer(rt));
    let status = write_fault(&mut writer, &fault, fault.status());
    let status = report_output(rt, &mut writer, status);
    if status == FAILED_OUTPUT {
        return status;
    }
    if let Some(fault) = Fault::of_line(writer.line()) {
        // Of a file that was not read to its end no line is judged.
        let bytes = match fault {
            Fault::Size | Fault::Read => &[],
            _ => file.bytes(),
        };
        let error = file.error();
        report_board(
            rt,
            alloc,
            name,
            bytes,
            fault,
            error,
            "; steps are read from standard input",
        );
    }
    status
}

/// Answers the lines of a reader on a board, and saves them if that is asked for. The file is made
/// once the board was read, so the board stays even if it is a link to the same file.
fn save<T: Print + Eprint + Files, R: Read + Drop>(
    rt: &T,
    alloc: Global,
    asked: AskedSession<'_>,
    opened: &Opened,
    reader: R,
) -> u8 {
    let Some(name) = asked.save else {
        let none: Option<T::File> = None;
        return buffer(rt, alloc, asked, opened, reader, none);
    };
    if name == asked.board {
        return refuse_saved(rt, name);
    }
    match fs::create(rt, name) {
        Ok(file) => buffer(rt, alloc, asked, opened, reader, Some(file)),
        Err(error) => {
            let _ = eprintln!(rt; "scmi: {name} can't be written: {error}");
            NO_FILE
        }
    }
}

/// The same with a buffer before the output, if there is memory for one.
fn buffer<T: Print + Eprint, R: Read + Drop, S: Write + Drop>(
    rt: &T,
    alloc: Global,
    asked: AskedSession<'_>,
    opened: &Opened,
    reader: R,
    saved: Option<S>,
) -> u8 {
    match BufWriter::new(alloc, io::writer(rt)) {
        Ok(writer) => {
            let writer = Painted::new(writer, asked.terminal.is_colored);
            let teller = Teller::new(rt, alloc, opened, asked, writer, saved);
            answer(rt, alloc, opened, reader, teller)
        }
        Err(_) => {
            let writer = Painted::new(io::writer(rt), asked.terminal.is_colored);
            let teller = Teller::new(rt, alloc, opened, asked, writer, saved);
            answer(rt, alloc, opened, reader, teller)
        }
    }
}

/// Answers the lines of a reader on a board.
fn answer<T: Eprint, R: Read + Drop, W: Write + Drop, S: Write + Drop>(
    rt: &T,
    alloc: Global,
    opened: &Opened,
    reader: R,
    mut teller: Teller<'_, T, W, S>,
) -> u8 {
    let mut kept = Kept::new(alloc, reader);
    let status = run_session(alloc, opened, &mut kept, &mut teller);
    let status = teller.report(status);
    if status == FAILED_OUTPUT {
        return status;
    }
    if let Some(fault) = Fault::of_line(teller.last_line()) {
        report_lines(rt, alloc, fault, kept.error());
    }
    status
}

/// Reports why the lines were not read to their end.
fn report_lines(rt: &impl Eprint, alloc: Global, fault: Fault, error: Option<io::Error>) {
    if fault == Fault::Size {
        let _ = eprintln!(rt; "{STANDARD_INPUT}: a line is longer than {INPUT_BYTES} bytes");
        return;
    }
    let found = explain(alloc, Expected::Session, &[], fault);
    report_found(rt, STANDARD_INPUT, fault, found, error);
}
