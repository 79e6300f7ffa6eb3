//! Words in bytes, little-endian (DEN0056B, shared memory transport).
ghost use Rattle.std.specs.Prelude.{◌≡◌, ◌+◌, ◌≤◌, length};
ghost use Rattle.scmi_codec.specs.Word.{word_at, put_word};

use byteorder::{ByteOrder, LittleEndian};

/// The word at a place, in bytes.
pub(crate) fn read_word(bytes: &[u8], at: usize) -> u32
    requires { at + 4 ≤ length bytes.now }
    ensures { result ≡ word_at at bytes.now }
{
    LittleEndian::read_u32(&bytes[at..])
}

/// Writes a word at a place, in bytes.
pub fn write_word(bytes: &mut [u8], at: usize, word: u32)
    requires { at + 4 ≤ length bytes.old }
    ensures { bytes.new ≡ put_word at word bytes.old }
{
    LittleEndian::write_u32(&mut bytes[at..], word);
}
