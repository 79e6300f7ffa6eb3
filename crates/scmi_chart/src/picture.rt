//! The picture: what is behind the marks, the states beside them, the marks, and the legend.

use crate::chart::Chart;
use crate::column::write_columns;
use crate::drawn_marks::write_mark;
use crate::legend::{legend_of, write_legend};
use crate::lifeline::{write_lifelines, write_rows};
use crate::measure::width_in;
use crate::place::Place;
use crate::script::write_steps;
use crate::shape::{Point, Shape, line, words, write_shapes};
use crate::style::write_style;
use crate::value::Value;
use std::io;
use std::io::Write;

const HEAD: &str = "<svg xmlns=\"http://www.w3.org/2000/svg\" width=\"%\" height=\"%\" \
viewBox=\"0 0 % %\" role=\"img\" aria-labelledby=\"title below\">\n<title id=\"title\">%</title>\n\
<desc id=\"below\">SCMI sequence chart: %</desc>\n";
/// The width of a screen, which a picture has at most if it can.
const SCREEN: u32 = 1_800;

/// Writes the chart as an SVG. The error is the writer's; some parts may then be written.
pub fn write_chart<W: Write>(writer: &mut W, chart: &Chart) -> io::Result<()> {
    let place = Place::of(chart);
    let width = width_of(place, chart);
    let legend = legend_of(chart, width.saturating_sub(48));
    let bottom = place.bottom();
    let height = bottom.saturating_add(36).saturating_add(legend.height);
    write_shapes(writer, &[head_of(chart, width, height)])?;
    write_style(writer)?;
    write_shapes(writer, &titles_of(chart))?;
    write_places(writer, place, chart)?;
    for mark in &chart.marks {
        write_mark(writer, place, mark)?;
    }
    write_legend(writer, &legend, bottom.saturating_add(26))?;
    writer.write_all(b"</svg>\n")
}

/// Writes what is behind the marks, and the states beside them.
fn write_places<W: Write>(writer: &mut W, place: Place<'_>, chart: &Chart) -> io::Result<()> {
    write_steps(writer, place, &chart.steps)?;
    write_lifelines(writer, place, &chart.lifelines)?;
    write_shapes(writer, &[border_of(place)])?;
    write_columns(writer, place, &chart.columns)?;
    write_rows(writer, place, chart)
}

/// The width of a picture: that of its parts, and of its title.
fn width_of(place: Place<'_>, chart: &Chart) -> u32 {
    let title = width_in(&chart.title, 19).max(width_in(&chart.subtitle, 12));
    place.width().max(title.saturating_add(48))
}

/// The head of the file. A wide picture is shown in a smaller size, so that it fits a screen, but
/// not below seven tenths.
fn head_of(chart: &Chart, width: u32, height: u32) -> Shape<'_> {
    let shown = width.min(SCREEN).max(width / 10 * 7);
    let lower = u64::from(height) * u64::from(shown) / u64::from(width.max(1));
    let lower = lower.min(u64::from(height)) as u32;
    let (shown, lower) = (Value::Number(shown), Value::Number(lower));
    let (width, height) = (Value::Number(width), Value::Number(height));
    let (title, below) = (
        Value::Outside(&chart.title),
        Value::Outside(&chart.subtitle),
    );
    Shape {
        text: HEAD,
        values: [shown, lower, width, height, title, below],
    }
}

/// The title, and the text below it.
fn titles_of(chart: &Chart) -> [Shape<'_>; 2] {
    let (title, below) = (
        Value::Outside(&chart.title),
        Value::Outside(&chart.subtitle),
    );
    [
        words("title", Point { x: 24, y: 34 }, title),
        words("soft", Point { x: 24, y: 55 }, below),
    ]
}

/// The line between the lifelines and the columns.
fn border_of(place: Place<'_>) -> Shape<'static> {
    let (x, y) = (place.border_x, place.bottom());
    line("border", Point { x, y: 84 }, Point { x, y })
}
