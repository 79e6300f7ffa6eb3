//! A check or a picture of a record: its board from a file, and the record from another or standard
//! input.

use crate::STANDARD_INPUT;
use crate::asked::STANDARD;
use crate::listed::Listed;
use crate::painted::Painted;
use crate::picture::{NotDrawn, picture_of};
use crate::record::run_record;
use crate::record_cause::split_item;
use crate::refusal::{BOARD_START, WRONG_ARGUMENT, begins_as_board, refuse_file, refuse_standard};
use crate::report::report_output;
use crate::report_board::report_board;
use crate::report_record::report_record;
use crate::serve::{without_feed, write_whole};
use crate::watched::Watched;
use scmi_board::{byte, word};
use scmi_chart::{Form, STEPS, write_chart, write_diagram};
use scmi_check::{CheckError, CheckOptions, DIFFERS, PROTOCOLS, Style, UNSURE, Unseen};
use scmi_explain::{Fault, Kept, LastLine};
use scmi_io::{CountedReader, FAILED_OUTPUT, FAULT, INPUT_BYTES, RECORD, read_rest, write_fault};
use std::alloc::Global;
use std::fs::{self, Files};
use std::io::{self, BufWriter, Eprint, Input, Print, Read, Write};

/// A check of a record, or a picture of one, by the names of its files.
#[derive(Clone, Copy)]
pub struct AskedCheck<'a> {
    /// The form of the picture, if one is asked for.
    pub picture: Option<Form>,
    /// The form of the report of a check.
    pub style: Style,
    /// Whether words of the report are in colour.
    pub is_colored: bool,
    /// Whether a person sees how far the record is checked.
    pub is_watched: bool,
    /// The protocols that are judged, with commas between their numbers.
    pub protocols: Option<&'a str>,
    /// What may have happened behind the record that no entry shows.
    pub unseen: Unseen,
    /// `-` if the board is standard input.
    pub board: &'a str,
    /// `None` or `-` if the record is standard input.
    pub record: Option<&'a str>,
}

/// Opens the files, checks or draws the record, and gives the exit status.
pub fn serve_check<T: Files + Print + Eprint + Input>(
    rt: &T,
    alloc: Global,
    asked: AskedCheck<'_>,
) -> u8 {
    if asked.board == STANDARD {
        return serve_record(rt, alloc, asked, rt.reader());
    }
    match fs::open(rt, asked.board) {
        Ok(board) => match asked.file_of_record() {
            None => check(rt, alloc, asked, board, rt.reader()),
            Some(_) => serve_record(rt, alloc, asked, board),
        },
        Err(error) => refuse_file(rt, asked.board, &error),
    }
}

/// The same, if the record is a file, and the board was opened.
fn serve_record<T: Files + Print + Eprint, B: Read + Drop>(
    rt: &T,
    alloc: Global,
    asked: AskedCheck<'_>,
    board: B,
) -> u8 {
    let Some(name) = asked.file_of_record() else {
        return refuse_standard(rt, "RECORD", "BOARD");
    };
    match fs::open(rt, name) {
        Ok(record) => check(rt, alloc, asked, board, record),
        Err(error) => refuse_file(rt, name, &error),
    }
}

impl<'a> AskedCheck<'a> {
    /// The file of the record, if that is not standard input.
    fn file_of_record(&self) -> Option<&'a str> {
        match self.record {
            Some(name) if name != STANDARD => Some(name),
            _ => None,
        }
    }

    /// What messages call the record.
    fn record_name(&self) -> &'a str {
        match self.file_of_record() {
            Some(name) => name,
            None => STANDARD_INPUT,
        }
    }

    /// The numbers of the protocols that are judged: those of the profile if none are listed, and
    /// `None` if one that is listed is no number below 256.
    fn judged(&self, alloc: Global) -> Option<Vec<u8>> {
        let mut judged = Vec::new(alloc);
        let Some(listed) = self.protocols else {
            judged.extend_from_slice(&PROTOCOLS).ok()?;
            return Some(judged);
        };
        let mut rest = listed.as_bytes();
        for _ in 0..usize::MAX {
            let (number, behind) = split_item(rest, b',');
            judged.push(byte(number)?).ok()?;
            if number.len() == rest.len() {
                break;
            }
            rest = behind;
        }
        Some(judged)
    }

    /// What messages call the board.
    fn board_name(&self) -> &'a str {
        if self.board == STANDARD {
            STANDARD_INPUT
        } else {
            self.board
        }
    }
}

/// Checks or draws the record of these files, and gives the exit status. What is wrong with a file,
/// or the output, is reported on standard error.
fn check<T: Print + Eprint, B: Read + Drop, R: Read + Drop>(
    rt: &T,
    alloc: Global,
    asked: AskedCheck<'_>,
    board: B,
    record: R,
) -> u8 {
    if let Some(form) = asked.picture {
        return draw(rt, alloc, asked, form, board, record);
    }
    // If there is no memory for a buffer, the output goes straight out.
    match BufWriter::new(alloc, io::writer(rt)) {
        Ok(writer) => {
            let writer = Painted::new(writer, asked.is_colored);
            check_on(rt, alloc, asked, board, record, writer)
        }
        Err(_) => {
            let writer = Painted::new(io::writer(rt), asked.is_colored);
            check_on(rt, alloc, asked, board, record, writer)
        }
    }
}

/// The same with this output.
fn check_on<T: Eprint, B: Read + Drop, R: Read + Drop, W: Write + Drop>(
    rt: &T,
    alloc: Global,
    asked: AskedCheck<'_>,
    board: B,
    record: R,
    writer: W,
) -> u8 {
    match asked.judged(alloc) {
        Some(judged) => check_judged(rt, alloc, asked, &judged, board, record, writer),
        None => {
            let listed = asked.protocols.unwrap_or("");
            let profile = Listed(&PROTOCOLS);
            let _ = eprintln!(rt;
                "scmi: '{listed}' is not a list of protocols; write numbers below 256 with commas \
                between, such as {profile}"
            );
            WRONG_ARGUMENT
        }
    }
}

/// The same if these protocols are judged.
fn check_judged<T: Eprint, B: Read + Drop, R: Read + Drop, W: Write + Drop>(
    rt: &T,
    alloc: Global,
    asked: AskedCheck<'_>,
    judged: &[u8],
    board: B,
    record: R,
    writer: W,
) -> u8 {
    let mut board = Kept::new(alloc, board);
    let record = Watched::new(rt, asked.record_name(), asked.is_watched, record);
    let mut record = Kept::new(alloc, record);
    let mut output = LastLine::new(writer);
    let options = CheckOptions {
        protocols: judged,
        unseen: asked.unseen,
    };
    let style = asked.style;
    let status = run_record(alloc, &mut board, &mut record, options, &mut output, style);
    let status = report_output(rt, &mut output, status);
    if !matches!(status, 0 | DIFFERS | UNSURE | FAILED_OUTPUT) {
        match asked.file_of_record() {
            Some(name) if is_swapped(&board, &mut record) => {
                let board_name = asked.board_name();
                let _ = eprintln!(rt;
                    "{board_name}: this is a record, and {name} a board; scmi check takes BOARD \
                    before RECORD"
                );
            }
            _ => report(rt, alloc, asked, judged, &board, &record, output.line()),
        }
    }
    status
}

/// Draws the record of these files in a form, whole or not at all.
fn draw<T: Print + Eprint, B: Read + Drop, R: Read + Drop>(
    rt: &T,
    alloc: Global,
    asked: AskedCheck<'_>,
    form: Form,
    board: B,
    record: R,
) -> u8 {
    let mut board = Kept::new(alloc, board);
    let mut record = Kept::new(alloc, record);
    let mut whole = Vec::new(alloc);
    let name = asked.record_name();
    let fault = match write_picture(alloc, &mut board, &mut record, form, &mut whole) {
        Ok(()) => return write_whole(rt, &whole),
        Err(NotDrawn::Many) => {
            let _ = eprintln!(rt;
                "{name}: a picture shows at most {STEPS} replies and messages; take a part of the \
                record"
            );
            return CheckError::Size.status();
        }
        Err(NotDrawn::Refused(CheckError::Memory)) => {
            let _ = eprintln!(rt; "{name}: out of memory");
            return CheckError::Memory.status();
        }
        Err(NotDrawn::Refused(fault)) => fault,
    };
    whole.clear();
    let status = write_fault(&mut whole, &fault, fault.status());
    let line = without_feed(&whole);
    report(rt, alloc, asked, &PROTOCOLS, &board, &record, line);
    status
}

/// Writes the picture of a record in a form.
fn write_picture<B: Read + Drop, R: Read + Drop>(
    alloc: Global,
    board: &mut Kept<B>,
    record: &mut Kept<R>,
    form: Form,
    whole: &mut Vec<u8>,
) -> Result<(), NotDrawn> {
    let board = read_all(alloc, board)?;
    let record = read_all(alloc, record)?;
    let chart = picture_of(alloc, &board, &record)?;
    let written = match form {
        Form::Svg => write_chart(whole, &chart),
        Form::Mermaid => write_diagram(whole, &chart),
    };
    // A vector refuses bytes only if there is no memory for them.
    match written {
        Ok(()) => Ok(()),
        Err(_) => Err(NotDrawn::Refused(CheckError::Memory)),
    }
}

/// All that is left of an input.
fn read_all<R: Read>(alloc: Global, input: &mut R) -> Result<Vec<u8>, CheckError> {
    match read_rest(alloc, &mut CountedReader::new(input)) {
        Ok(text) => Ok(text),
        Err(error) => Err(CheckError::from(error)),
    }
}

/// The last line if nothing is judged.
const NOTHING: &[u8] = b"fault empty";

/// Whether a board is in the place of the record, which was not read, and none in its own place.
fn is_swapped<B: Read + Drop, R: Read + Drop>(board: &Kept<B>, record: &mut Kept<R>) -> bool {
    if board.bytes().starts_with(BOARD_START) || was_read(record) {
        return false;
    }
    begins_as_board(record)
}

/// Whether something of an input was read.
fn was_read<R: Read + Drop>(input: &Kept<R>) -> bool {
    !input.bytes().is_empty()
}

/// Reports what is wrong with a file, if the last line is a fault.
fn report<B: Read + Drop, R: Read + Drop>(
    rt: &impl Eprint,
    alloc: Global,
    asked: AskedCheck<'_>,
    judged: &[u8],
    board: &Kept<B>,
    record: &Kept<R>,
    last_line: &[u8],
) {
    let name = asked.record_name();
    if let Some(line) = line_of(last_line, RECORD) {
        report_record(rt, alloc, name, board.bytes(), record.bytes(), line);
    } else if let Some(line) = line_of(last_line, "long ") {
        let _ = eprintln!(rt; "{name}:{line}: this line is longer than {INPUT_BYTES} bytes");
    } else if last_line == NOTHING && asked.picture.is_some() {
        let listed = Listed(judged);
        let _ = eprintln!(rt;
            "{name}: nothing to draw: no command with its reply, and no message, of protocols \
            {listed}; docs/CHECK.md has the lines of a record"
        );
    } else if last_line == NOTHING {
        let listed = Listed(judged);
        let _ = eprintln!(rt;
            "{name}: nothing to check: no command with its reply, and no message, of protocols \
            {listed}; docs/CHECK.md has the lines of a record, and --protocols names other protocols"
        );
    } else if let Some(error) = record.error() {
        let _ = eprintln!(rt; "{name}: the record can't be read: {error}");
    } else if let Some(fault) = fault_of_board(last_line, board) {
        let name = asked.board_name();
        report_board(rt, alloc, name, board.bytes(), fault, board.error(), "");
    }
}

/// The fault that a last line names, if it is one of the board.
fn fault_of_board<B: Read + Drop>(last_line: &[u8], board: &Kept<B>) -> Option<Fault> {
    let fault = Fault::of_line(last_line)?;
    let is_of_board = match fault {
        Fault::Board(_) | Fault::Plan(_) | Fault::Size => true,
        Fault::Read => board.error().is_some(),
        _ => false,
    };
    if is_of_board { Some(fault) } else { None }
}

/// The line of a record that a fault of this kind names.
fn line_of(fault: &[u8], kind: &str) -> Option<u32> {
    let fault = fault.strip_prefix(FAULT.as_bytes())?;
    word(fault.strip_prefix(kind.as_bytes())?)
}
