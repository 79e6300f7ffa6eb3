//! Areas that are described alike.
ghost use Rattle.std.specs.Prelude.{◌≡◌, ◌↔◌, IsTrue};
ghost use Rattle.scmi_decode.specs.Alike.{state_of, StandAlike};
ghost use Rattle.scmi_decode.specs.Description.{described_area};

use scmi_codec::{AREA_BYTES, Frame, Message, frame_of, status_at};

/// Whether two areas have the same description. This holds if and only if they have the same frame
/// (header and payload words, or the length and header word of a malformed one) and their channels
/// are in the same state: busy, free, or free with the error bit. So a description loses nothing of
/// these; it does not have the other bytes of an area.
#[tactic(auto, using(crate::proofs::SameDescription::same_description))]
pub fn are_described_alike(first: &[u8; AREA_BYTES], second: &[u8; AREA_BYTES]) -> bool
    ensures area { IsTrue result ↔ StandAlike first.now second.now }
    ensures description { IsTrue result ↔ (described_area first.now ≡ described_area second.now) }
{
    let is_same_state = state_of(first) == state_of(second);
    is_same_state && are_same(&frame_of(first), &frame_of(second))
}

/// The state of a channel by the status word of its area: 0 busy, 1 free, 3 free with the error
/// bit.
fn state_of(area: &[u8; AREA_BYTES]) -> u32
    ensures { result ≡ state_of area.now }
{
    let status = status_at(area);
    if status % 2 == 1 { status % 4 } else { 0 }
}

/// Whether two frames are the same, word for word.
fn are_same(first: &Frame, second: &Frame) -> bool
    ensures { IsTrue result ↔ (first.now ≡ second.now) }
{
    match (first, second) {
        (Frame::Good(first), Frame::Good(second)) => are_same_messages(first, second),
        (
            Frame::Malformed {
                length: first_length,
                header: first_header,
            },
            Frame::Malformed {
                length: second_length,
                header: second_header,
            },
        ) => first_length == second_length && first_header == second_header,
        _ => false,
    }
}

/// Whether two messages are the same, word for word.
#[tactic(auto, using(scmi_codec::proofs::HeaderLemmas::header_decides))]
fn are_same_messages(first: &Message, second: &Message) -> bool
    ensures { IsTrue result ↔ (first.now ≡ second.now) }
{
    first.header == second.header && first.payload == second.payload
}
