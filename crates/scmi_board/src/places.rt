//! Places of bytes in a text.
ghost use Rattle.std.specs.Prelude.{◌≡◌, ◌≤◌, ◌==◌, not, drop, length};
ghost use Rattle.std.specs.List.{position, position_or_len};

/// The place at which this byte first is, or the length of the text if it is not there.
pub(crate) fn first_place(text: &[u8], byte: u8) -> usize
    ensures place { result ≡ position_or_len (λ other. other == byte) text.now }
    ensures within { result ≤ length text.now }
{
    place_of(text, byte).unwrap_or(text.len())
}

fn place_of(text: &[u8], byte: u8) -> Option<usize>
    ensures { result ≡ position (λ other. other == byte) text.now }
{
    text.iter().position(|other| *other == byte)
}

/// The place at which another byte than this first is, or the length of the text if there is none.
pub(crate) fn first_other_place(text: &[u8], byte: u8) -> usize
    ensures place { result ≡ position_or_len (λ other. not (other == byte)) text.now }
    ensures within { result ≤ length text.now }
{
    other_place_of(text, byte).unwrap_or(text.len())
}

fn other_place_of(text: &[u8], byte: u8) -> Option<usize>
    ensures { result ≡ position (λ other. not (other == byte)) text.now }
{
    text.iter().position(|other| *other != byte)
}

/// The text without its first byte, if it has one.
pub(crate) fn behind_first(text: &[u8]) -> &[u8]
    ensures { result.now ≡ drop 1 text.now }
{
    match text {
        [_, behind @ ..] => behind,
        [] => text,
    }
}
