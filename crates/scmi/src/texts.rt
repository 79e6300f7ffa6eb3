//! What the program shows of itself.

use crate::forms::{Form, form_of, forms};
use crate::request::{Request, Task};
use std::io::{self, Write};

/// How the program is used, before its tasks.
const HEAD: &str = "\
Both sides of Arm's System Control and Management Interface (SCMI, DEN0056B).

Usage:
";

/// The same, after them.
const TAIL: &str = "
FILE is read, or standard input if it is - or missing; the result goes to standard output, and
errors to standard error, with the line that is wrong, what is expected, and the likely mistake.
On a terminal the words for what is wrong are red, unless the variable NO_COLOR is set.
Exit status: 0 success; 1 the output failed; 2 the input is rejected; 3 a limit was reached;
4 out of memory; 5 a record differs; 64 a wrong argument; 66 FILE can't be opened.

Example: scmi run examples/two_agents.in
";

/// Which program this is.
const VERSION: &str = "Tolbjir scmi 1.0.0: SCMI 2.0 (DEN0056B)\n";

/// Writes the text that a request asks for; nothing if it asks for a task. The error is the
/// writer's; some parts may then be written.
pub fn write_text<W: Write>(writer: &mut W, request: Request) -> io::Result<()> {
    match request {
        Request::Do(Task::Help) => write_help(writer),
        Request::Do(Task::Version) => write_fixed(writer, VERSION),
        Request::HelpOn(task) => write_form(writer, form_of(task)),
        Request::Do(_) | Request::Dumps(_) | Request::Bytes(_) | Request::Diagram => Ok(()),
    }
}

fn write_help<W: Write>(writer: &mut W) -> io::Result<()> {
    write_fixed(writer, HEAD)?;
    write_rows(writer, forms())?;
    write_fixed(writer, TAIL)
}

fn write_fixed<W: Write>(writer: &mut W, text: &str) -> io::Result<()> {
    writer.write_all(text.as_bytes())
}

/// Writes how each task is asked for, and what it does.
fn write_rows<W: Write>(writer: &mut W, rows: &[Form]) -> io::Result<()> {
    for row in rows {
        write_row(writer, row)?;
    }
    Ok(())
}

fn write_row<W: Write>(writer: &mut W, form: &Form) -> io::Result<()> {
    let usage = form.usage;
    let summary = form.summary;
    write!(writer, "  {usage}\n      {summary}\n")
}

/// Writes the help on a task.
fn write_form<W: Write>(writer: &mut W, form: &Form) -> io::Result<()> {
    let about = form.about;
    let usage = form.usage;
    let details = form.details;
    let example = form.example;
    write!(
        writer,
        "{about}\n\nUsage: {usage}\n\n{details}\n\nExample: {example}\n"
    )
}
