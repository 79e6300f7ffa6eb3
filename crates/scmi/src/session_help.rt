//! What a session says when it is asked for help.

use crate::unknown_text::{Usage, named_at, protocols, text_or};
use scmi_codec::{HeldProtocol, HeldRow, Part};
use scmi_live::flags_of;
use scmi_plan::RawPlan;
use std::io::Eprint;

/// How a step, or another line of a session, is written.
#[derive(Clone, Copy)]
struct HelpRow {
    word: &'static str,
    /// What follows the word.
    items: &'static str,
    about: &'static str,
}

macro_rules! rows {
    ($($word:literal $items:literal $about:literal;)*) => {
        [$(HelpRow { word: $word, items: $items, about: $about }),*]
    };
}

/// The lines of a session.
const ROWS: [HelpRow; 18] = rows![
    "do" "AGENT MESSAGE .." "the agent posts a command, the platform executes it, the agent reads the reply";
    "call" "AGENT MESSAGE .." "the agent posts a command; serve and collect follow";
    "fail" "AGENT MESSAGE .." "as do, but the hardware refuses each change that the command would make";
    "refuse" "AGENT STATUS MESSAGE .." "as fail, with a status that the hardware gives, such as DENIED";
    "serve" "AGENT" "the platform executes the command that the agent posted";
    "collect" "AGENT" "the agent looks for its reply";
    "advance" "[failed|refused STATUS]" "the platform completes its next asynchronous set, or the hardware refuses it";
    "flush" "AGENT" "the platform posts its next message for the agent: a notification or a delayed response";
    "p2a" "AGENT" "the agent reads that message";
    "raw" "AGENT HEADER WORD .." "the agent posts a message with this header, in numbers";
    "bad" "AGENT LENGTH HEADER" "the agent posts a malformed frame";
    "close" "AGENT" "the agent closes its channels";
    "shut" "AGENT" "the platform closes the agent's channels";
    "report"
        "state DOMAIN STATE|rate CLOCK RATE|enabled CLOCK on|off|first PLACE|settled CLOCK RATE"
        "the hardware changed it by itself, ends the set at PLACE first, or gives a free clock this rate";
    "restart" "AGENT" "the agent restarted: the platform ends what the agent asked for";
    "words" "on|off" "replies are described, or are not";
    "help" "[WORD]" "WORD is one of these, a message, messages, board or all";
    "quit" "" "ends the session";
];

fn rows() -> &'static [HelpRow; 18] {
    &ROWS
}

/// Words that items may be on every board, besides the names of flags.
const WORDS: [&str; 12] = [
    "base", "power", "clock", "on", "off", "failed", "refused", "state", "rate", "enabled",
    "first", "settled",
];

/// Parts whose flags have names; those of a power domain's set are among those of a rate's.
const FLAGS: [Part; 3] = [Part::RateFlags, Part::PermitFlags, Part::ResetFlags];

/// Reports what a line asks for: `help`, or `help ` and a topic.
pub fn report_help(rt: &impl Eprint, board: &RawPlan, text: &[u8]) {
    let topic = text.strip_prefix(b"help ").unwrap_or(b"");
    let topic = text_or(topic, "");
    if topic.is_empty() {
        report_rows(rt);
    } else if topic == "board" {
        report_board_names(rt, board);
    } else if topic == "messages" {
        report_messages(rt);
    } else if topic == "all" {
        report_all(rt, board);
    } else {
        report_topic(rt, topic);
    }
}

/// Reports how each line is written.
fn report_rows(rt: &impl Eprint) {
    for row in rows() {
        report_row(rt, row);
    }
    let _ = eprintln!(rt;
        "help do says more of do; help POWER_STATE_SET of a message. docs/SCRIPTS.md has all.\n\
        rlwrap scmi session BOARD adds line editing and history."
    );
}

fn report_row(rt: &impl Eprint, row: &HelpRow) {
    let word = row.word;
    let items = row.items;
    let about = row.about;
    let _ = if items.is_empty() {
        eprintln!(rt; "{word}\n    {about}")
    } else {
        eprintln!(rt; "{word} {items}\n    {about}")
    };
}

/// Reports what a word is that begins a line or names a message.
fn report_topic(rt: &impl Eprint, topic: &str) {
    let mut is_there = report_line(rt, topic);
    for protocol in &protocols() {
        is_there |= report_named(rt, protocol.messages, topic);
    }
    if !is_there {
        let _ = eprintln!(rt; "no help on \"{topic}\"; help lists what there is");
    }
}

/// Reports how the line is written that begins with this word, if there is one: whether there is.
fn report_line(rt: &impl Eprint, word: &str) -> bool {
    let mut is_there = false;
    for row in rows() {
        if row.word == word {
            report_row(rt, row);
            is_there = true;
        }
    }
    if word == "do" || word == "call" || word == "fail" {
        let _ = eprintln!(rt;
            "    for example: {word} ap POWER_STATE_SET async cpu off\n    \
            items are names of the board or numbers; states are on and off, and a rate may have a \
            unit, as 600MHz"
        );
    }
    is_there
}

/// Reports how the message of this name is written, if it is among these: whether it is.
fn report_named(rt: &impl Eprint, rows: &[HeldRow], name: &str) -> bool {
    let mut is_there = false;
    for row in rows {
        if row.name == name {
            let usage = Usage {
                name: row.name,
                parts: row.asks,
            };
            let _ = eprintln!(rt; "{usage}");
            is_there = true;
        }
    }
    is_there
}

/// Reports how each message is written.
fn report_messages(rt: &impl Eprint) {
    for protocol in &protocols() {
        report_protocol(rt, protocol);
    }
}

fn report_protocol(rt: &impl Eprint, protocol: &HeldProtocol) {
    let name = protocol.name;
    let _ = eprintln!(rt; "{name}:");
    for row in protocol.messages {
        let usage = Usage {
            name: row.name,
            parts: row.asks,
        };
        let _ = eprintln!(rt; "    {usage}");
    }
}

/// Reports what the board has.
fn report_board_names(rt: &impl Eprint, board: &RawPlan) {
    report_part(rt, board, Part::Agent, "agent");
    report_part(rt, board, Part::Domain, "domain");
    report_part(rt, board, Part::Clock, "clock");
}

/// Reports the names that a board has for a part: after this word and a number, or alone if there
/// is no word.
fn report_part(rt: &impl Eprint, board: &RawPlan, part: Part, word: &str) {
    for place in 0..usize::MAX {
        let Some((number, name)) = named_at(board, part, place) else {
            return;
        };
        if word.is_empty() {
            report_word(rt, name);
        } else {
            let _ = eprintln!(rt; "{word} {number} {name}");
        }
    }
}

/// Reports each word that a line may have, for what completes words.
fn report_all(rt: &impl Eprint, board: &RawPlan) {
    for row in rows() {
        report_word(rt, row.word);
    }
    for protocol in &protocols() {
        report_names(rt, protocol.messages);
    }
    report_part(rt, board, Part::Agent, "");
    report_part(rt, board, Part::Domain, "");
    report_part(rt, board, Part::Clock, "");
    for word in &WORDS {
        report_word(rt, word);
    }
    for part in FLAGS {
        report_flags(rt, part);
    }
}

/// Reports the names of messages.
fn report_names(rt: &impl Eprint, rows: &[HeldRow]) {
    for row in rows {
        report_word(rt, row.name);
    }
}

/// Reports the names of flags.
fn report_flags(rt: &impl Eprint, part: Part) {
    for row in flags_of(part) {
        report_word(rt, text_or(row.name, ""));
    }
}

fn report_word(rt: &impl Eprint, word: &str) {
    let _ = eprintln!(rt; "{word}");
}
