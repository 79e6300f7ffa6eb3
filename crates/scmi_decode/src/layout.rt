//! Which bytes of a dump are areas.
ghost use Rattle.std.specs.Prelude.{◌≡◌};
ghost use Rattle.scmi_decode.specs.Layout.{each_layout, layout_of, size_of};

use scmi_codec::{channel_words, is_channel_size};

/// The bytes of an area before its payload words (DEN0056B).
const HEAD_BYTES: usize = 0x1C;

/// Which bytes of a dump are areas.
#[derive(Clone, Copy, PartialEq, Eq, Debug)]
pub enum Layout {
    /// All of them are one area.
    Whole,
    /// All from this byte on, counted from 0, are one area.
    From(usize),
    /// Areas of one size.
    Each(Pieces),
}

/// Areas with room for `words` payload words: the first begins at byte `offset`, and `gap` bytes are
/// between two.
#[derive(Clone, Copy, PartialEq, Eq, Debug)]
pub struct Pieces {
    pub offset: usize,
    pub words: u8,
    pub gap: usize,
}

impl Pieces {
    /// The size of each area in bytes.
    pub fn size(&self) -> usize
        ensures { result ≡ size_of self.now }
    {
        HEAD_BYTES + 4 * usize::from(self.words)
    }
}

/// Why numbers are no layout.
#[derive(Clone, Copy)]
pub enum LayoutError {
    /// No area has this size.
    Size,
    /// A stride needs a size.
    NoSize,
    /// The stride is less than the size: areas would overlap.
    Stride,
}

impl Layout {
    /// The layout of these numbers of bytes, each of which may be left out: from byte `offset` on, or
    /// from the first, areas of `size` bytes, one each `stride` bytes, or each `size` bytes. Without a
    /// size all is one area. `NoSize` if a stride comes without a size; `Size` if no area has the
    /// size; `Stride` if the stride is less than the size.
    pub fn new(
        offset: Option<usize>,
        size: Option<usize>,
        stride: Option<usize>,
    ) -> Result<Layout, LayoutError>
        ensures { result ≡ layout_of offset size stride }
    {
        match (offset, size, stride) {
            (None, None, None) => Ok(Layout::Whole),
            (Some(offset), None, None) => Ok(Layout::From(offset)),
            (_, None, Some(_)) => Err(LayoutError::NoSize),
            (None, Some(size), None) => each_layout(0, size, size),
            (None, Some(size), Some(stride)) => each_layout(0, size, stride),
            (Some(offset), Some(size), None) => each_layout(offset, size, size),
            (Some(offset), Some(size), Some(stride)) => each_layout(offset, size, stride),
        }
    }
}

/// The layout of areas of one size.
fn each_layout(offset: usize, size: usize, stride: usize) -> Result<Layout, LayoutError>
    ensures { result ≡ each_layout offset size stride }
{
    if !is_channel_size(size) {
        return Err(LayoutError::Size);
    }
    if stride < size {
        return Err(LayoutError::Stride);
    }
    Ok(Layout::Each(Pieces {
        offset,
        words: channel_words(size) as u8,
        gap: stride - size,
    }))
}
