//! Messages of the tests.

use scmi_codec::{Answer, Header, Message, payload_of};

/// BASE_PROTOCOL_VERSION with token 5, as a header word.
pub const HEADER: u32 = 0x0014_4000;

/// BASE_PROTOCOL_VERSION with token 5.
pub fn command() -> Message {
    Message {
        header: Header::unpack(HEADER),
        payload: payload_of(&[]),
    }
}

/// The response to BASE_PROTOCOL_VERSION of a header word: SUCCESS and version 2.0.
pub fn response(header: u32) -> Answer {
    Answer::Reply(Message {
        header: Header::unpack(header),
        payload: payload_of(&[0, 0x0002_0000]),
    })
}
