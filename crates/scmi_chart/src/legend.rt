//! What the lines and signs of a chart mean, as far as it has them.

use crate::chart::{Chart, Column, Span, State};
use crate::drawn_marks::class_of;
use crate::mark::Mark;
use crate::shape::{Point, Shape, drawn, write_shapes};
use crate::value::Value;
use scmi_io::write_filled;
use std::io;
use std::io::Write;

/// Where a chart has a line or a sign.
#[derive(Clone, Copy)]
enum Where {
    /// In the marks of this class.
    Mark(&'static str),
    Token,
    Lost,
    Held,
    Dropped,
}

/// An explanation: where the chart has it, the classes of the line or sign and what draws it, its
/// width with its words, where these begin, and the words.
#[derive(Clone, Copy)]
struct Entry {
    place: Where,
    class: &'static str,
    sign: &'static str,
    width: u32,
    x: u32,
    words: &'static str,
}

/// The height of a row.
const ROW: u32 = 26;

const BEGIN: &str = "<svg class=\"legend\" x=\"24\" y=\"%\">\n";

const ENTRY: &str =
    "<svg class=\"mark %\" x=\"%\" y=\"%\">%<text x=\"%\" y=\"16\">%</text></svg>\n";

const ARROW: &str = "<line class=\"head\" x1=\"0\" y1=\"12\" x2=\"26\" y2=\"12\"/>";

const CROSS: &str = "<path class=\"lost\" d=\"M5 7l10 10m0 -10l-10 10\"/>";

const SHUT: &str = "<path class=\"shut\" d=\"M5 7l10 10m0 -10l-10 10\"/>";

const RING: &str = "<circle class=\"post\" cx=\"5\" cy=\"12\" r=\"4\"/>";

const TOKEN: &str = "<circle class=\"token\" cx=\"10\" cy=\"12\" r=\"8\"/>\
<text class=\"number\" x=\"7\" y=\"15\">0</text>";

const RESTART: &str = "<rect x=\"2\" y=\"10\" width=\"18\" height=\"5\"/>";

const HELD: &str = "<rect class=\"held\" x=\"5\" y=\"5\" width=\"6\" height=\"14\"/>";

macro_rules! entries {
    ($($place:expr, $width:literal $class:literal $sign:ident $x:literal $words:literal;)*) => {
        [$(Entry {
            place: $place,
            class: $class,
            sign: $sign,
            width: $width,
            x: $x,
            words: $words,
        }),*]
    };
}

/// How many entries there are.
const COUNT: usize = 14;
/// All lines and signs, in order.
const ENTRIES: &[Entry; COUNT] = &entries![
    Where::Mark("command"), 103 "command" ARROW 34 "command";
    Where::Lost, 108 "sign" CROSS 22 "not executed";
    Where::Mark("reply"), 91 "reply" ARROW 34 "reply";
    Where::Mark("reply pending"), 128 "reply pending" ARROW 34 "set accepted";
    Where::Mark("reply refusal"), 103 "reply refusal" ARROW 34 "refusal";
    Where::Mark("delayed"), 159 "delayed" ARROW 34 "delayed response";
    Where::Mark("notification"), 130 "notification" ARROW 34 "notification";
    Where::Token, 74 "sign" TOKEN 24 "token";
    Where::Mark("posted"), 146 "sign" RING 15 "posted to the agent";
    Where::Mark("fault"), 126 "sign" CROSS 22 "hardware refused";
    Where::Mark("closed"), 122 "sign" SHUT 22 "channels closed";
    Where::Mark("restart"), 109 "sign" RESTART 26 "agent restarts";
    Where::Held, 96 "sign" HELD 17 "set pending";
    Where::Dropped, 150 "sign" CROSS 22 "notification dropped";
];

/// Where the explanations of what a chart has are, and the height of their rows.
#[derive(Clone, Copy)]
pub(crate) struct Legend {
    places: [Option<Point>; COUNT],
    pub height: u32,
}

fn entries() -> &'static [Entry; COUNT] {
    ENTRIES
}

/// The legend of a chart in rows of this width: an entry is in the next row if there is no room for
/// it in this one.
pub(crate) fn legend_of(chart: &Chart, width: u32) -> Legend {
    let mut places = [None; COUNT];
    let mut at = Point { x: 0, y: 0 };
    for i in 0..COUNT {
        let entry = &entries()[i];
        if is_used(chart, entry.place) {
            if at.x > 0 && at.x.saturating_add(entry.width) > width {
                at = Point { x: 0, y: at.y }.behind(0, ROW);
            }
            places[i] = Some(at);
            at = at.behind(entry.width, 0);
        }
    }
    let height = at.y.saturating_add(ROW);
    Legend { places, height }
}

fn shape_of(entry: &Entry, at: Point) -> Shape<'static> {
    let class = Value::Words(entry.class.as_bytes());
    let sign = Value::Words(entry.sign.as_bytes());
    let words = Value::Words(entry.words.as_bytes());
    drawn(ENTRY, class, at, [sign, Value::Number(entry.x), words])
}

/// Writes a legend at this height.
pub(crate) fn write_legend<W: Write>(writer: &mut W, legend: &Legend, y: u32) -> io::Result<()> {
    write_filled(writer, BEGIN, &[Value::Number(y)])?;
    for i in 0..COUNT {
        if let Some(at) = legend.places[i] {
            write_shapes(writer, &[shape_of(&entries()[i], at)])?;
        }
    }
    writer.write_all(b"</svg>\n")
}

fn is_used(chart: &Chart, place: Where) -> bool {
    for mark in &chart.marks {
        if is_in_mark(mark, place) {
            return true;
        }
    }
    for column in &chart.columns {
        if is_in_column(column, place) {
            return true;
        }
    }
    false
}

fn is_in_mark(mark: &Mark, place: Where) -> bool {
    match place {
        Where::Mark(class) => class_of(mark) == class,
        Where::Token => matches!(
            mark,
            Mark::Command { token: Some(_), .. }
                | Mark::Withdrawn { token: Some(_), .. }
                | Mark::Delayed { .. }
        ),
        Where::Lost => matches!(mark, Mark::Withdrawn { .. } | Mark::Refused { .. }),
        Where::Held | Where::Dropped => false,
    }
}

fn is_in_column(column: &Column, place: Where) -> bool {
    match place {
        Where::Held => has_pending(&column.spans),
        Where::Dropped => !column.drops.is_empty(),
        Where::Mark(_) | Where::Token | Where::Lost => false,
    }
}

fn has_pending(spans: &[Span]) -> bool {
    for span in spans {
        if matches!(span.state, State::Pending) {
            return true;
        }
    }
    false
}
