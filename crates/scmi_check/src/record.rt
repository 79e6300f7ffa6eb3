//! A record, as it is read.
ghost use Rattle.std.specs.Prelude.{IfErr};
ghost use Rattle.scmi_board.specs.LineError.{GivesUnless};
ghost use Rattle.scmi_board.specs.Lines.{line_of};
ghost use Rattle.scmi_board.specs.TextError.{IsOfScript};
ghost use Rattle.scmi_text.specs.TextLines.{GivesScript};
ghost use Rattle.scmi_check.specs.RecordText.{record_left, record_view, shows_of, with_line};

use crate::left_out::LeftOut;
use crate::shown::read_shown;
use crate::so_far::SoFar;
use scmi_board::{LineError, Lines, TextError, TextLine};
use scmi_judge::Entry;
use std::alloc::Global;

/// An entry of a record, with the number of the line that shows it: that of the answer, or of the
/// message.
#[derive(Drop)]
pub struct Placed {
    pub line: u32,
    pub entry: Entry,
}

/// A record: its entries, in the order in which they were found, and what it has that is not
/// judged.
#[derive(Drop)]
pub struct Record {
    pub entries: Vec<Placed>,
    pub left: LeftOut,
}

/// The record that all lines that are left encode (own). A command is the line of a script that
/// posts it, `do`, `raw` or `bad`; its answer, and a message of the platform, is the line of a
/// run's output. Each may be an area of its channel instead, or a line of Linux's ftrace with its
/// event `scmi_msg_dump`; other lines of a trace are skipped. What the hardware told is the line
/// `report` of a script. The agents are those of the board, which has this many.
///
/// What can't be judged is noted: a command without an answer, a response in a trace that answers
/// no command which waits, with the command that follows it and has its token, and events that are
/// lost, from which on no command of a trace waits. Of protocols other than the ones that are
/// judged all is skipped, and counted.
///
/// `Script` gives the number of the first line that is not a line of a record: of another form,
/// of an agent that the board lacks, a command, but of ftrace, before its agent's waiting one has
/// its answer, an answer, but of ftrace, to no command of its agent. `Memory` if out of memory.
pub fn read_record(
    alloc: Global,
    lines: &mut Lines<'_>,
    agents: u32,
    judged: &[u8],
) -> Result<Record, TextError>
    ensures errors { IfErr result IsOfScript }
    ensures record { GivesScript record_view result (record_left judged.now agents lines.old) }
{
    let mut so_far = SoFar::new(alloc, judged);
    while let Some(line) = lines.next_line() {
        if let Err(error) = add_line(alloc, &mut so_far, line, agents) {
            return Err(error.in_script(line.number));
        }
    }
    so_far.finish()
}

/// One line more.
#[tactic(auto, unfolding(crate::specs::RecordText::with_line))]
pub(crate) fn add_line(
    alloc: Global,
    so_far: &mut SoFar<'_>,
    line: TextLine<'_>,
    agents: u32,
) -> Result<(), LineError>
    ensures { GivesUnless (λ _. shows_of so_far.new) result
        (with_line agents (shows_of so_far.old) (line_of line.entry)) }
{
    let shown = read_shown(alloc, line.text, agents)?;
    so_far.add(line.number, shown)
}
