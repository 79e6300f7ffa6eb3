//! What the area of a channel is, of the size that its board gives it.
ghost use Rattle.std.specs.Prelude.{◌≡◌, Ok, Err, true, false, length};
ghost use Rattle.scmi_codec.specs.ChannelArea.{channel_frame, is_channel_size};
ghost use Rattle.scmi_codec.specs.declared.area.TheConstants.{AREA_BYTES};
ghost use Rattle.scmi_codec.specs.declared.channel_area.ChannelAreaError.{ChannelAreaError};
ghost use Rattle.scmi_decode.specs.Description.{described_area, described_channel, described_found};

use crate::describing::{describe_left, describe_posted, has_error};
use crate::description::Description;
use scmi_codec::{ChannelAreaError, Frame, channel_frame, read_channel_area};

/// What the area of a channel is, as `describe` gives it for one of the most bytes: a length of
/// more than its own words is not that of a frame. `WrongSize` if the number of bytes is no
/// channel's.
pub fn describe_channel(area: &[u8]) -> Result<Description, ChannelAreaError>
    ensures ok { is_channel_size (length area.now) ≡ true
        → result ≡ Ok (described_channel area.now) }
    ensures whole { length area.now ≡ AREA_BYTES → result ≡ Ok (described_area area.now) }
    ensures wrong_size { is_channel_size (length area.now) ≡ false
        → result ≡ Err ChannelAreaError.WrongSize }
{
    let waiting = read_channel_area(area)?;
    Ok(describe_found(area, waiting))
}

/// The same by what a callee finds there, if it finds something.
fn describe_found(area: &[u8], waiting: Option<Frame>) -> Description
    requires size { is_channel_size (length area.now) ≡ true }
    ensures { result ≡ described_found area.now (channel_frame area.now) waiting }
{
    match waiting {
        Some(frame) => describe_posted(frame),
        None => describe_left(has_error(area), channel_frame(area)),
    }
}
