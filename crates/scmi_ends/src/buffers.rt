//! The buffers of a command and its answer while they are served.
use scmi_codec::{Answer, Frame, Message};

// The frame taken last, the last reply, and what an agent released a message with last. The next
// ones are written over them, so that no call makes them anew.
#[derive(Drop)]
pub(crate) struct Buffers {
    pub(crate) frame: Frame,
    pub(crate) reply: Message,
    pub(crate) release: Answer,
}

impl Buffers {
    pub(crate) fn new() -> Buffers {
        Buffers {
            frame: Frame::Good(Message::default()),
            reply: Message::default(),
            release: Answer::Released,
        }
    }
}
