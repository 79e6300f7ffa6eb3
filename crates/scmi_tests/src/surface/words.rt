//! The surface of `scmi_words`.

use scmi_link::Channel;
use scmi_words::{WordChannel, WordImage};

fn name_the_calls() {
    let _: fn(&WordImage) -> [u8; 284] = WordImage::area;
}

/// A channel of shared words is a channel, and leaves an image.
fn is_channel() -> bool {
    may_be_full::<WordChannel>()
}

fn may_be_full<C: Channel<Rest = WordImage>>() -> bool {
    C::FULL
}
