//! Lists in replies, as they are written.

use crate::flags::Reserved;
use crate::names::protocol_name;
use scmi_codec::rate_of;
use std::io;
use std::io::Write;

/// Writes the reply of a list of rates: how many it has, whether they are a triplet, and else how many
/// follow them in the list; then each of its rates on a line of its own.
pub(crate) fn write_rates<W: Write>(writer: &mut W, words: &[u32]) -> io::Result<()> {
    let [flags, rates @ ..] = words else {
        return Ok(());
    };
    write_flags(writer, *flags)?;
    for place in 0..rates.len() / 2 {
        let rate = rate_of(rates[2 * place], rates[2 * place + 1]);
        writeln!(writer, "                {rate} Hz")?;
    }
    Ok(())
}

/// Writes the first line of that reply.
fn write_flags<W: Write>(writer: &mut W, flags: u32) -> io::Result<()> {
    let count = flags & 0xfff;
    let after = flags >> 16;
    let reserved = Reserved(flags & 0xe000);
    if flags & 0x1000 != 0 {
        writeln!(
            writer,
            "    rates       {count}, lowest highest step{reserved}"
        )
    } else {
        writeln!(
            writer,
            "    rates       {count}, {after} after these{reserved}"
        )
    }
}

/// Writes the reply of a list of protocols: how many there are, and each by its id and name, `?` if it
/// has no name here. The ids are four to a word.
pub(crate) fn write_protocols<W: Write>(writer: &mut W, words: &[u32]) -> io::Result<()> {
    let [count, ids @ ..] = words else {
        return Ok(());
    };
    write!(writer, "    protocols   {count}")?;
    let mut left = *count;
    for word in ids {
        for id in word.to_le_bytes() {
            if left > 0 {
                write_protocol(writer, if left == *count { ':' } else { ',' }, id)?;
                left -= 1;
            }
        }
    }
    writeln!(writer)
}

/// Writes a protocol after a character that comes before it.
fn write_protocol<W: Write>(writer: &mut W, between: char, id: u8) -> io::Result<()> {
    let name = protocol_name(id).unwrap_or("?");
    write!(writer, "{between} 0x{id:02x} {name}")
}
