//! What the message of an entry is called.
use scmi_codec::{DELAYED_RESPONSE, Frame, Header, Message, NOTIFICATION, message_name};
use scmi_decode::notification_name;
use scmi_judge::Entry;

/// The name of what the hardware told.
const REPORT: &str = "report";

/// The name of an entry's command, or of its message, or the word of what the hardware told. `None`
/// of a frame that is not well formed, and of a message that the profile lacks.
pub(crate) fn entry_name(entry: &Entry) -> Option<&'static str> {
    match entry {
        Entry::Answered { frame, .. } | Entry::Asked { frame, .. } | Entry::Replied { frame, .. } =>
            frame_name(frame),
        Entry::GivenUp { .. } => None,
        Entry::Told { .. } => Some(REPORT),
        Entry::Delivered { message, .. } => delivered_name(&message.header),
    }
}

fn frame_name(frame: &Frame) -> Option<&'static str> {
    match frame {
        Frame::Good(Message { header, .. }) if header.kind() == 0 => message_name(
            header.protocol(),
            header.id(),
        ),
        _ => None,
    }
}

/// A delayed response has the name of its command.
fn delivered_name(header: &Header) -> Option<&'static str> {
    match header.kind() {
        DELAYED_RESPONSE => message_name(header.protocol(), header.id()),
        NOTIFICATION => notification_name(header.protocol(), header.id()),
        _ => None,
    }
}
