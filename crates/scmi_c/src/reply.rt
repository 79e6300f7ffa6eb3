//! Replies to commands that the firmware answers.
ghost use Rattle.std.specs.Prelude.{◌≡◌, ◌≢◌, ◌↔◌, ◌⊎◌, ◌<◌, None, length, true, false};
ghost use Rattle.scmi_codec.specs.Area.{area_after_answer, header_at, message_of};
ghost use Rattle.scmi_codec.specs.ChannelArea.{capacity, channel_waiting, is_channel_size};
ghost use Rattle.scmi_codec.specs.declared.frame.Answer.TheVariants.{Reply};
ghost use Rattle.scmi_c.specs.declared.code.TheConstants.{DONE, NO_FRAME, WRONG_SIZE};

use crate::code::{DONE, NO_FRAME, WRONG_SIZE};
use scmi_codec::{PAYLOAD_WORDS, Payload, is_channel_free, set_payload, write_channel_response};

/// Answers the command in an area, of the size of any channel, with these payload words: one that
/// `scmi_ask` left to the firmware (own). The header stays. `WRONG_SIZE` if the bytes are not a
/// channel's; `NO_FRAME` if the channel is free; `WRONG_SIZE` if the area has not room for the
/// words. After another number than `DONE` nothing changed.
#[unsafe(no_mangle)]
pub extern "C" fn scmi_reply(area: &mut [u8], words: &[u32]) -> u32
    ensures done { result ≡ DONE → area.new
        ≡ area_after_answer (Reply (message_of (header_at area.old) words.now)) area.old }
    ensures no_frame { (result ≡ NO_FRAME)
        ↔ ((is_channel_size (length area.old) ≡ true) × (channel_waiting area.old ≡ None)) }
    ensures wrong_size { (result ≡ WRONG_SIZE) ↔ ((is_channel_size (length area.old) ≡ false)
        ⊎ ((channel_waiting area.old ≢ None) × (capacity area.old < length words.now))) }
    ensures errors { (result ≡ DONE) ⊎ (result ≡ NO_FRAME) ⊎ (result ≡ WRONG_SIZE) }
    ensures kept { result ≢ DONE → area.new ≡ area.old }
{
    match is_channel_free(area) {
        Ok(false) => {}
        Ok(true) => return NO_FRAME,
        Err(_) => return WRONG_SIZE,
    }
    if words.len() > PAYLOAD_WORDS {
        return WRONG_SIZE;
    }
    let mut payload = Payload::new();
    set_payload(&mut payload, words);
    match write_channel_response(area, &payload) {
        Ok(()) => DONE,
        Err(_) => WRONG_SIZE,
    }
}
