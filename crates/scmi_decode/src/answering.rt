//! What an area is once something was written into it.
ghost use Rattle.std.specs.Prelude.{◌≡◌};
ghost use Rattle.scmi_codec.specs.Area.{area_after_answer, frame_of, area_after_post};
ghost use Rattle.scmi_codec.specs.declared.frame.Frame.TheVariants.{Good};
ghost use Rattle.scmi_decode.specs.Description.{described_answer, described_posted};

use crate::describing::describe;
use crate::description::Description;
use scmi_codec::{AREA_BYTES, Answer, Message, write_answer, write_message};

/// Answers the frame of an area as a callee does, and gives what the area then is: that answer, or,
/// if it has no words of its own, the frame that it was given to.
pub fn describe_answered(area: &mut [u8; AREA_BYTES], answer: &Answer) -> Description
    ensures description { result ≡ described_answer (frame_of area.old) answer.now }
    ensures area { area.new ≡ area_after_answer answer.now area.old }
{
    let _ = write_answer(area, answer);
    describe(area)
}

/// Writes a message as a caller posts it, and gives what the area then is: that message, which
/// waits.
pub fn describe_written(area: &mut [u8; AREA_BYTES], message: &Message) -> Description
    ensures description { result ≡ described_posted (Good message.now) }
    ensures area { area.new ≡ area_after_post message.now area.old }
{
    let _ = write_message(area, message);
    describe(area)
}
