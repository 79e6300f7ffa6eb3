//! What a caller puts into a channel, and what the callee answers.
ghost use Rattle.std.specs.Prelude.{◌≡◌, []};
ghost use Rattle.scmi_codec.specs.Area.{message_of};
ghost use Rattle.scmi_codec.specs.declared.frame.Frame.TheVariants.{Good, Malformed};

use crate::header::Header;
use crate::message::Message;
use arrayvec::ArrayVec;

/// What is in an area that is not free: a message, or a length that is not well formed.
#[derive(Clone, PartialEq, Eq, Debug, Drop)]
pub enum Frame {
    Good(Message),
    /// The length in bytes as given, and the header word.
    Malformed { length: u32, header: u32 },
}

/// What the callee leaves in an area.
#[derive(Clone, PartialEq, Eq, Debug, Drop)]
pub enum Answer {
    /// The response to a command.
    Reply(Message),
    /// The channel is marked free, with no response.
    Released,
    /// The channel is marked free with the error bit (own): the frame was malformed.
    ChannelError,
}

impl Frame {
    /// The same frame again. It takes no memory.
    pub fn copy(&self) -> Frame
        ensures { result ≡ self.now }
    {
        match self {
            Frame::Good(message) => Frame::Good(message.copy()),
            Frame::Malformed { length, header } => Frame::Malformed {
                length: *length,
                header: *header,
            },
        }
    }

    /// Becomes the same frame as another. Of a message only the words that are there are copied.
    pub fn copy_from(&mut self, frame: &Frame)
        ensures { self.new ≡ frame.now }
    {
        match frame {
            Frame::Good(message) => match self {
                Frame::Good(own) => own.copy_from(message),
                Frame::Malformed { .. } => *self = Frame::Good(message.copy()),
            },
            Frame::Malformed { length, header } => self.set_malformed(*length, *header),
        }
    }

    /// Becomes a message of header word 0 without payload words. What it is made of is not a local
    /// of the callers.
    #[inline(never)]
    pub fn set_empty(&mut self)
        ensures { self.new ≡ Good (message_of 0 []) }
    {
        *self = Frame::Good(Message {
            header: Header::unpack(0),
            payload: ArrayVec::new(),
        });
    }

    /// Becomes a frame whose length in bytes, as given, is not well formed. What it is made
    /// of is not a local of the callers, which a function clears when it is entered.
    #[inline(never)]
    pub fn set_malformed(&mut self, length: u32, header: u32)
        ensures { self.new ≡ Malformed length header }
    {
        *self = Frame::Malformed { length, header };
    }
}

impl Answer {
    /// The same answer again. It takes no memory.
    pub fn copy(&self) -> Answer
        ensures { result ≡ self.now }
    {
        match self {
            Answer::Reply(message) => Answer::Reply(message.copy()),
            Answer::Released => Answer::Released,
            Answer::ChannelError => Answer::ChannelError,
        }
    }

    /// Becomes the same answer as another. Of a message only the words that are there are copied.
    pub fn copy_from(&mut self, answer: &Answer)
        ensures { self.new ≡ answer.now }
    {
        match answer {
            Answer::Reply(message) => match self {
                Answer::Reply(own) => own.copy_from(message),
                _ => *self = Answer::Reply(message.copy()),
            },
            Answer::Released => *self = Answer::Released,
            Answer::ChannelError => *self = Answer::ChannelError,
        }
    }
}
