//! The picture of a record: what went over a platform's channels.

use crate::board_names::BoardNames;
use scmi_board::{Lines, TextLine, read_valid_board};
use scmi_chart::{Chart, Recorder, STEPS, title_of};
use scmi_check::{CheckError, PROTOCOLS, Placed, Record, read_record};
use scmi_codec::{Answer, Frame, Header, Message, payload_of};
use scmi_core::Core;
use scmi_judge::Entry;
use scmi_link::{Collected, Served};
use scmi_live::in_hertz;
use scmi_plan::{Plan, RawPlan};
use scmi_text::{AgentStep, Call, PlatformStep, Step, StepLine};
use std::alloc::{AllocError, Global};

/// Why a record is not drawn.
pub(crate) enum NotDrawn {
    /// As a check of it is refused.
    Refused(CheckError),
    /// It has more entries than a picture shows.
    Many,
}

impl From<AllocError> for NotDrawn {
    fn from(_error: AllocError) -> NotDrawn {
        NotDrawn::Refused(CheckError::Memory)
    }
}

impl From<CheckError> for NotDrawn {
    fn from(error: CheckError) -> NotDrawn {
        NotDrawn::Refused(error)
    }
}

/// The picture of a record of a platform with the board of a text: its commands with their answers,
/// and the other messages. What else the record has is counted below the title.
pub(crate) fn picture_of(alloc: Global, board: &[u8], text: &[u8]) -> Result<Chart, NotDrawn> {
    let board = in_hertz(alloc, board)?;
    let names = BoardNames::of_text(alloc, &board)?;
    let plan = match read_valid_board(alloc, &board) {
        Ok(valid) => valid.plan,
        Err(error) => return Err(NotDrawn::Refused(CheckError::from(error))),
    };
    let record = read_with_names(alloc, &names, text)?;
    if record.entries.is_empty() {
        return Err(NotDrawn::Refused(CheckError::Empty));
    }
    if record.entries.len() > STEPS {
        return Err(NotDrawn::Many);
    }
    let mut chart = chart_of(alloc, &names.board, plan, &record, text)?;
    // The states of domains and clocks, which a record does not show.
    chart.columns.clear();
    Ok(chart)
}

/// The record of a text.
fn read_with_names(alloc: Global, names: &BoardNames, text: &[u8]) -> Result<Record, NotDrawn> {
    let numbered = names.in_numbers(alloc, text, u32::MAX)?;
    let mut lines = Lines::of_text(&numbered);
    match read_record(alloc, &mut lines, names.agents, &PROTOCOLS) {
        Ok(record) => Ok(record),
        Err(error) => Err(NotDrawn::Refused(CheckError::from(error))),
    }
}

/// The chart of a record, with the lines of its text.
fn chart_of(
    alloc: Global,
    board: &RawPlan,
    plan: Plan,
    record: &Record,
    text: &[u8],
) -> Result<Chart, AllocError> {
    let core = Core::new(alloc, plan);
    let lines: Vec<&[u8]> = text.split(|byte| *byte == b'\n').collect(alloc)?;
    let mut recorder = Recorder::new(alloc, board, &core)?;
    let mut number = 0usize;
    for placed in &record.entries {
        number = number.saturating_add(1);
        if has_answer(&record.entries, number, &placed.entry) {
            let line = text_at(&lines, placed.line);
            draw(&mut recorder, &core, line, placed)?;
        }
    }
    recorder.finish(title_of(alloc, board)?, subtitle_of(alloc, record)?)
}

/// The line of this number, from 1.
fn text_at<'a>(lines: &[&'a [u8]], number: u32) -> TextLine<'a> {
    let text = match lines.get((number as usize).saturating_sub(1)) {
        Some(line) => *line,
        None => b"",
    };
    TextLine { number, text }
}

/// How many of these entries are drawn as answers or messages.
fn drawn_of(entries: &[Placed]) -> usize {
    let mut drawn = 0usize;
    for placed in entries {
        drawn = drawn.saturating_add(placed.entry.is_from_platform() as usize);
    }
    drawn
}

/// What is drawn of a record and what is not, in a line.
fn subtitle_of(alloc: Global, record: &Record) -> Result<Vec<u8>, AllocError> {
    let drawn = drawn_of(&record.entries);
    let ending = if drawn == 1 { "y" } else { "ies" };
    let noted = record.left.notes.len();
    let skipped = record.left.skipped;
    let text = if noted == 0 && skipped == 0 {
        format!(in alloc; "a record of {drawn} entr{ending}")?
    } else {
        format!(in alloc;
            "a record of {drawn} entr{ending}; not drawn: {noted} unanswered, unmatched or lost, \
            {skipped} of other protocols"
        )?
    };
    Ok(text.into_bytes())
}

/// Whether an entry is no command, or one that has its answer behind the first entries, which are so
/// many.
fn has_answer(entries: &[Placed], first: usize, entry: &Entry) -> bool {
    let Entry::Asked { place, .. } = entry else {
        return true;
    };
    let asked = *place;
    let (_, behind) = entries.split_at(first.min(entries.len()));
    for placed in behind {
        if let Some((place, is_answer)) = freed_by(&placed.entry)
            && place == asked
        {
            return is_answer;
        }
    }
    false
}

/// The place that an entry frees, and whether that has its answer.
fn freed_by(entry: &Entry) -> Option<(u32, bool)> {
    match entry {
        Entry::Replied { place, .. } => Some((*place, true)),
        Entry::GivenUp { place } => Some((*place, false)),
        _ => None,
    }
}

/// Draws an entry, whose answer or message is in this line, or whose command, if that is answered
/// later.
fn draw(
    recorder: &mut Recorder<'_>,
    core: &Core,
    line: TextLine<'_>,
    placed: &Placed,
) -> Result<(), AllocError> {
    match &placed.entry {
        Entry::Answered {
            agent,
            frame,
            answer,
        } => draw_answered(recorder, core, line, *agent, frame, answer),
        Entry::Asked { agent, frame, .. } => {
            draw_posted(recorder, core, line, *agent, step_of(frame))
        }
        Entry::Replied { agent, answer, .. } => {
            draw_collected(recorder, core, line, *agent, answer)
        }
        Entry::GivenUp { .. } => Ok(()),
        Entry::Delivered { agent, message } => {
            let agent = *agent;
            let step = Step::Agent {
                agent,
                step: AgentStep::P2a,
            };
            let frame = Some(Frame::Good(message.copy()));
            recorder.record(line, &step, &StepLine::P2a { agent, frame }, core)
        }
        Entry::Told { report } => {
            let step = Step::Report { report: *report };
            recorder.record(line, &step, &StepLine::Reported { taken: true }, core)
        }
    }
}

/// Draws a command with its answer.
fn draw_answered(
    recorder: &mut Recorder<'_>,
    core: &Core,
    line: TextLine<'_>,
    agent: u32,
    frame: &Frame,
    answer: &Answer,
) -> Result<(), AllocError> {
    if let Frame::Good(message) = frame
        && is_plain(message.header)
    {
        let collected = Collected::Got(answer.copy());
        let call = call_of(message);
        let step = Step::Do { agent, call };
        return recorder.record(line, &step, &StepLine::Collected { agent, collected }, core);
    }
    draw_posted(recorder, core, line, agent, step_of(frame))?;
    let below = TextLine {
        number: line.number,
        text: b"",
    };
    draw_collected(recorder, core, below, agent, answer)
}

/// The step that posts a frame.
fn step_of(frame: &Frame) -> AgentStep {
    match frame {
        Frame::Good(message) => AgentStep::Raw(message.copy()),
        Frame::Malformed { length, header } => AgentStep::Malformed {
            length: *length,
            header: *header,
        },
    }
}

/// Draws a frame by itself.
fn draw_posted(
    recorder: &mut Recorder<'_>,
    core: &Core,
    line: TextLine<'_>,
    agent: u32,
    step: AgentStep,
) -> Result<(), AllocError> {
    let posts = Step::Agent { agent, step };
    recorder.record(line, &posts, &StepLine::Posted { agent }, core)
}

/// Draws the answer to a frame that was drawn before.
fn draw_collected(
    recorder: &mut Recorder<'_>,
    core: &Core,
    line: TextLine<'_>,
    agent: u32,
    answer: &Answer,
) -> Result<(), AllocError> {
    let number = line.number;
    let serves = Step::Platform {
        agent,
        step: PlatformStep::Serve,
    };
    let served = Served::Done;
    recorder.record(line, &serves, &StepLine::Served { agent, served }, core)?;
    let collects = Step::Agent {
        agent,
        step: AgentStep::Collect,
    };
    let collected = Collected::Got(answer.copy());
    let below = TextLine { number, text: b"" };
    recorder.record(
        below,
        &collects,
        &StepLine::Collected { agent, collected },
        core,
    )
}

/// Whether a call posts a message with this header.
fn is_plain(header: Header) -> bool {
    header == Header::command(header.protocol(), header.token(), header.id())
}

/// The call that posts a message.
fn call_of(message: &Message) -> Call {
    Call {
        protocol: message.header.protocol(),
        message: message.header.id(),
        payload: payload_of(message.payload.as_slice()),
    }
}
