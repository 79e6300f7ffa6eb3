//! Rates, in words.
ghost use Rattle.std.specs.Prelude.{OnOk};
ghost use Rattle.std.specs.Io.KnownBytes.{Appends};
ghost use Rattle.scmi_chart.specs.Rate.{rate_text, scaled_text, fraction_text};

use std::io;
use std::io::Write;

/// The unit of rates from 10^9 Hz.
const GIGAHERTZ: &str = " GHz";
/// The unit of rates from 10^6 Hz.
const MEGAHERTZ: &str = " MHz";
/// The unit of rates from 1,000 Hz.
const KILOHERTZ: &str = " kHz";
/// The unit of other rates.
const HERTZ: &str = " Hz";
/// What is between a number and its thousandths.
const POINT: &str = ".";

/// Writes a rate in Hz, in the largest unit of which it has one or more and at most three digits
/// after the point: 19.2 MHz, 32.768 kHz. The error is the writer's; a part may then be written.
pub fn write_rate<W: Write>(writer: &mut W, hertz: u64) -> io::Result<()>
    ensures { OnOk result (Appends (W.contents writer.old) (W.contents writer.new)
        (rate_text hertz)) }
{
    if hertz >= 1_000_000_000 && hertz % 1_000_000 == 0 {
        write_scaled(writer, hertz / 1_000_000, GIGAHERTZ)
    } else if hertz >= 1_000_000 && hertz % 1_000 == 0 {
        write_scaled(writer, hertz / 1_000, MEGAHERTZ)
    } else if hertz >= 1_000 && hertz < 1_000_000 {
        write_scaled(writer, hertz, KILOHERTZ)
    } else {
        write!(writer, "{hertz}{HERTZ}")
    }
}

/// Writes this many thousandths of a unit.
#[tactic(auto, unfolding(crate::specs::Rate::scaled_text))]
fn write_scaled<W: Write>(writer: &mut W, thousandths: u64, unit: &str) -> io::Result<()>
    ensures { OnOk result (Appends (W.contents writer.old) (W.contents writer.new)
        (scaled_text thousandths unit.now)) }
{
    let whole = thousandths / 1_000;
    write!(writer, "{whole}")?;
    write_fraction(writer, (thousandths % 1_000) as u32)?;
    writer.write_all(unit.as_bytes())
}

/// Writes thousandths after a point, without the zeros at their end.
fn write_fraction<W: Write>(writer: &mut W, thousandths: u32) -> io::Result<()>
    ensures { OnOk result (Appends (W.contents writer.old) (W.contents writer.new)
        (fraction_text thousandths)) }
{
    let tenths = thousandths / 100;
    let hundredths = thousandths / 10 % 10;
    let last = thousandths % 10;
    if thousandths == 0 {
        Ok(())
    } else if thousandths % 100 == 0 {
        write!(writer, "{POINT}{tenths}")
    } else if last == 0 {
        write!(writer, "{POINT}{tenths}{hundredths}")
    } else {
        write!(writer, "{POINT}{tenths}{hundredths}{last}")
    }
}
