//! The length of an area whose numbers were printed in the other byte order.
ghost use Rattle.std.specs.Prelude.{◌≡◌, ◌≤◌, ◌+◌, length};
ghost use Rattle.scmi_codec.specs.Area.{length_at};
ghost use Rattle.scmi_decode.specs.Finding.{if_well_formed, length_from, length_of_halves, swapped_length, swapped_of};

use byteorder::{BigEndian, ByteOrder, LittleEndian};
use scmi_codec::is_well_formed;

// The place of the length, in bytes (DEN0056B, shared memory transport).
const LENGTH_AT: usize = 0x14;

// Where the length lies as printed, if it is the second or the first half of a number of 64 bits that
// was printed in the other byte order.
const SECOND_HALF_AT: usize = 0x10;

const FIRST_HALF_AT: usize = 0x18;

/// The length of an area's frame in the other byte order, of numbers of 16, 32 or 64 bits, if only that
/// is one that a frame has.
pub(crate) fn swapped_of(area: &[u8]) -> Option<u32>
    requires room { 0x1C ≤ length area.now }
    ensures { result ≡ swapped_of area.now }
{
    if is_well_formed(own_length(area)) {
        None
    } else {
        swapped_length(area)
    }
}

/// The first length that a frame may have, of those that an area's has in the other byte order.
fn swapped_length(area: &[u8]) -> Option<u32>
    requires room { 0x1C ≤ length area.now }
    ensures { result ≡ swapped_length area.now }
{
    length_from(LENGTH_AT, area)
        .or(length_of_halves(area))
        .or(length_from(SECOND_HALF_AT, area))
        .or(length_from(FIRST_HALF_AT, area))
}

/// A length, if a frame may have it.
fn if_well_formed(length: u32) -> Option<u32>
    ensures { result ≡ if_well_formed length }
{
    if is_well_formed(length) {
        Some(length)
    } else {
        None
    }
}

/// The length of an area's frame.
fn own_length(area: &[u8]) -> u32
    requires room { 0x18 ≤ length area.now }
    ensures { result ≡ length_at area.now }
{
    LittleEndian::read_u32(&area[LENGTH_AT..])
}

/// A number of an area that is printed in the other byte order, if a frame may have it as its length.
fn length_from(place: usize, area: &[u8]) -> Option<u32>
    requires room { place + 4 ≤ length area.now }
    ensures { result ≡ length_from place area.now }
{
    if_well_formed(BigEndian::read_u32(&area[place..]))
}

/// The same of two numbers of 16 bits, where the length is.
fn length_of_halves(area: &[u8]) -> Option<u32>
    requires room { 0x18 ≤ length area.now }
    ensures { result ≡ length_of_halves area.now }
{
    let low = BigEndian::read_u16(&area[LENGTH_AT..]);
    let high = BigEndian::read_u16(&area[LENGTH_AT + 2..]);
    if_well_formed(u32::from(low) + u32::from(high) * 0x1_0000)
}
