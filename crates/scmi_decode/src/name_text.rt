//! Names in replies, as they are written.

use std::fmt;
use std::fmt::Write;

/// The words of a name, the first byte lowest: the name in quotation marks, up to its first zero byte,
/// and whether another byte follows that.
#[derive(Clone, Copy)]
pub(crate) struct NameText(pub(crate) [u32; 4]);

impl fmt::Display for NameText {
    fn fmt<W: fmt::Write>(&self, f: &mut fmt::Formatter<W>) -> fmt::Result {
        let mut is_ended = false;
        let mut goes_on = false;
        f.write_str("\"")?;
        for word in self.0 {
            for byte in word.to_le_bytes() {
                match byte {
                    0 => is_ended = true,
                    _ if is_ended => goes_on = true,
                    b' '..=b'~' => f.write_char(char::from(byte))?,
                    _ => f.write_char('?')?,
                }
            }
        }
        f.write_str(if goes_on {
            "\", and bytes behind its end"
        } else {
            "\""
        })
    }
}
