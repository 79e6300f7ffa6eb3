//! How wide words are.

/// How wide the letters are from the space to `~`, in hundredths of the font's size: those of
/// DejaVu Sans Bold, the widest of the fonts that a picture names.
const WIDTHS: [u8; 95] = [
    35, 46, 53, 84, 70, 101, 88, 31, 46, 46, 53, 84, 38, 42, 38, 37, 70, 70, 70, 70, 70, 70, 70,
    70, 70, 70, 40, 40, 84, 84, 84, 59, 100, 78, 77, 74, 84, 69, 69, 83, 84, 38, 38, 78, 64, 100,
    84, 86, 74, 86, 78, 73, 69, 82, 78, 111, 78, 73, 73, 46, 37, 46, 84, 50, 50, 68, 72, 60, 72,
    68, 44, 72, 72, 35, 35, 67, 35, 105, 72, 69, 72, 72, 50, 60, 48, 72, 66, 93, 65, 66, 59, 72,
    37, 72, 84,
];
/// The width of the sign for a byte that is not printable.
const UNSHOWN_WIDTH: u8 = 59;
/// The least size of a font.
const LEAST: u32 = 4;
/// How many letters of a text are measured: longer ones are as wide as these.
const MEASURED: usize = 120;

/// How wide a letter is as it is shown.
fn letter_width(byte: u8) -> u32 {
    let place = usize::from(byte).saturating_sub(32);
    u32::from(*WIDTHS.get(place).unwrap_or(&UNSHOWN_WIDTH))
}

/// How wide a text is, in hundredths of the font's size.
pub(crate) fn width_of(text: &[u8]) -> u32 {
    let mut width = 0u32;
    for byte in &text[..text.len().min(MEASURED)] {
        width = width.saturating_add(letter_width(*byte));
    }
    width
}

/// A width in hundredths of a font's size, in pixels for a font of this size.
pub(crate) fn pixels(width: u32, size: u32) -> u32 {
    width.saturating_mul(size) / 100
}

/// How wide a text is in a font of this size, in pixels.
pub(crate) fn width_in(text: &[u8], size: u32) -> u32 {
    pixels(width_of(text), size)
}

/// The size of a font in which a text with this width in hundredths of it has room: at most
/// this one, and at least 4.
pub(crate) fn size_in(width: u32, room: u32, size: u32) -> u32 {
    (room.saturating_mul(100) / width.max(1))
        .min(size)
        .max(LEAST)
}
