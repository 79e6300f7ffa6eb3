//! What a platform left in a channel.
ghost use Rattle.std.specs.Prelude.{◌≡◌, ◌%◌, OnOk, IfOk};
ghost use Rattle.scmi_codec.specs.Area.{frame_of, status_at};
ghost use Rattle.scmi_codec.specs.declared.frame.Frame.TheVariants.{Good};
ghost use Rattle.scmi_agent.specs.Answer.{answer_in, message_in};

use crate::error::ReadError;
use scmi_codec::{AREA_BYTES, Frame, Message, frame_of, status_at};

/// The message that a platform left in a channel as its answer. `Nothing` while the channel is not
/// free, `ChannelError` if it is free with the error bit, and `Malformed` for a length that is not
/// well formed.
pub(crate) fn answer_in(area: &[u8; AREA_BYTES]) -> Result<Message, ReadError>
    ensures value { result ≡ answer_in area.now }
    ensures free { OnOk result (status_at area.now % 4 ≡ 1) }
    ensures frame { IfOk result (λ message. frame_of area.now ≡ Good message) }
{
    let status = status_at(area);
    if status % 2 != 1 {
        return Err(ReadError::Nothing);
    }
    if status / 2 % 2 == 1 {
        return Err(ReadError::ChannelError);
    }
    message_in(frame_of(area))
}

/// The message of a frame; `Malformed` if its length is not well formed.
pub(crate) fn message_in(frame: Frame) -> Result<Message, ReadError>
    ensures value { result ≡ message_in frame }
    ensures message { IfOk result (λ message. frame ≡ Good message) }
{
    match frame {
        Frame::Good(message) => Ok(message),
        Frame::Malformed { .. } => Err(ReadError::Malformed),
    }
}
