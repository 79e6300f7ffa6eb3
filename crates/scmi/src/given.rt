//! Inputs of `run` and `chart`, as they are run: with numbers in place of names.
ghost use Rattle.std.specs.Prelude.{◌≡◌, ◌++◌, ◌∷◌, IfOk};
ghost use Rattle.scmi.specs.Given.{IsBehindLine, is_hardware, with_end};

use scmi_live::{in_hertz, numbered};
use scmi_modes::{HARDWARE_RINGS, HARDWARE_WORDS};
use std::alloc::{AllocError, Global};

/// Whether a first line is a mode `hardware`.
pub(crate) fn is_hardware(line: &[u8]) -> bool
    ensures { result ≡ is_hardware line.now }
{
    line == HARDWARE_RINGS.as_bytes() || line == HARDWARE_WORDS.as_bytes()
}

/// A first line, and the line feed that ended it, if one did.
pub(crate) fn with_end(alloc: Global, line: &[u8], is_ended: bool) -> Result<Vec<u8>, AllocError>
    ensures { IfOk result (λ start. start.items ≡ with_end line.now is_ended) }
{
    let mut start = Vec::new(alloc);
    start.extend_from_slice(line)?;
    if is_ended {
        start.push(b'\n')?;
    }
    Ok(start)
}

/// The line of a mode `hardware`, and the board and script behind it, with rates in Hz and numbers
/// in place of names. The only error is out of memory.
pub(crate) fn in_numbers(alloc: Global, line: &[u8], text: &[u8]) -> Result<Vec<u8>, AllocError>
    ensures { IfOk result (λ given. IsBehindLine line.now text.now given.items) }
{
    let hertz = in_hertz(alloc, text)?;
    let script = numbered(alloc, &hertz)?;
    behind_line(alloc, line, &script)
}

/// A text behind a line.
pub(crate) fn behind_line(alloc: Global, line: &[u8], text: &[u8]) -> Result<Vec<u8>, AllocError>
    ensures { IfOk result (λ given. given.items ≡ line.now ++ 10 ∷ text.now) }
{
    let mut given = Vec::new(alloc);
    given.extend_from_slice(line)?;
    given.push(b'\n')?;
    given.extend_from_slice(text)?;
    Ok(given)
}
