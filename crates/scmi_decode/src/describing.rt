//! What an area is, from its bytes.
ghost use Rattle.std.specs.Prelude.{◌≡◌, ◌≢◌, ◌/◌, ◌%◌, ◌==◌, ◌≤◌, false, length};
ghost use Rattle.scmi_codec.specs.Area.{status_at, StandsForAnswer};
ghost use Rattle.scmi_codec.specs.declared.frame.Frame.{Frame as FrameOf};
ghost use Rattle.scmi_codec.specs.declared.frame.Frame.TheVariants.{Good};
ghost use Rattle.scmi_codec.specs.declared.frame.Answer.{Answer as AnswerOf};
ghost use Rattle.scmi_decode.specs.Description.{described_area, described_posted, described_left, described_response, described_p2a, described_answer};

use crate::description::Description;
use crate::reply::response_status;
use scmi_codec::{AREA_BYTES, Command, Frame, Message, Status, frame_of, read_area, status_at};

/// What an area is. The status word decides first: the area of a busy channel holds its caller's
/// message. In a free one a message of type 0 is a reply if it has the form of one, and else a
/// command that was withdrawn (own).
pub fn describe(area: &[u8; AREA_BYTES]) -> Description
    ensures description { result ≡ described_area area.now }
    ensures answer { (frame : FrameOf) → (answer : AnswerOf) →
        StandsForAnswer area.now frame answer → result ≡ described_answer frame answer }
{
    match read_area(area) {
        Ok(Some(frame)) => describe_posted(frame),
        _ => describe_left(has_error(area), frame_of(area)),
    }
}

/// Whether the error bit of an area is set.
pub(crate) fn has_error(area: &[u8]) -> bool
    requires room { 8 ≤ length area.now }
    ensures { result ≡ (status_at area.now / 2 % 2 == 1) }
{
    status_at(area) / 2 % 2 == 1
}

/// What a frame is in a busy channel.
pub(crate) fn describe_posted(frame: Frame) -> Description
    ensures { result ≡ described_posted frame }
{
    match frame {
        Frame::Malformed { length, header } => Description::Malformed {
            is_free: false,
            length,
            header,
        },
        Frame::Good(message) => {
            if message.header.kind() == 0 {
                let request = Command::read(&message);
                return Description::Command { message, request };
            }
            describe_p2a(false, message)
        }
    }
}

/// What a frame is in a free channel, with or without the error bit.
pub(crate) fn describe_left(is_error: bool, frame: Frame) -> Description
    ensures { result ≡ described_left is_error frame }
{
    if is_error {
        return Description::ChannelError { frame };
    }
    match frame {
        Frame::Malformed { length, header } => {
            if length == 0 && header == 0 {
                return Description::Unused;
            }
            Description::Malformed {
                is_free: true,
                length,
                header,
            }
        }
        Frame::Good(message) => describe_message(message),
    }
}

/// What a message is in a free channel without the error bit.
pub fn describe_message(message: Message) -> Description
    ensures { result ≡ described_left false (Good message) }
{
    if message.header.kind() == 0 {
        return describe_response(message);
    }
    describe_p2a(true, message)
}

/// What a message of type 0 is in a free channel.
fn describe_response(message: Message) -> Description
    ensures { result ≡ described_response message }
{
    match response_status(&message) {
        None => {
            let request = Command::read(&message);
            Description::Withdrawn { message, request }
        }
        Some(Status::Success) => Description::Reply { message },
        Some(status) => Description::Refusal { message, status },
    }
}

/// What a message of another type than 0 is.
fn describe_p2a(is_free: bool, message: Message) -> Description
    ensures { result ≡ described_p2a is_free message }
{
    match message.header.kind() {
        2 => Description::Delayed { is_free, message },
        3 => Description::Notification { is_free, message },
        _ => Description::Foreign { is_free, message },
    }
}
