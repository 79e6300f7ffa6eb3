//! What replies of the clock protocol give.
ghost use Rattle.std.specs.Prelude.{◌≡◌, ◌≤◌, length};
ghost use Rattle.scmi_codec.specs.declared.payload.TheConstants.{PAYLOAD_WORDS};
ghost use Rattle.scmi_agent.specs.ClockReply.{clock_reply, rates_of, has_rates};

use scmi_codec::{Payload, payload_of, rate_of};

/// What a reply of the clock protocol with status SUCCESS gives: the parts after its status. A name
/// is its four words, the first byte lowest. Rates are in Hz.
#[derive(Clone, PartialEq, Eq, Debug, Drop)]
pub enum ClockReply {
    Version { version: u32 },
    /// Pending sets in bits [23:16], clocks in [15:0].
    Attributes { attributes: u32 },
    MessageAttributes { attributes: u32 },
    /// Bit 0 enabled.
    ClockAttributes { attributes: u32, name: [u32; 4] },
    /// The rates that remain in bits [31:16], bit 12 for lowest, highest and step, the number of
    /// rates in [11:0]; and these rates, two words each, the lower one first.
    Describe { flags: u32, rates: Payload },
    SetRate,
    GetRate { rate: u64 },
    Config,
}

impl ClockReply {
    /// What words after the status SUCCESS give as the reply to a message of this id; `None` if its
    /// reply has another number of words, or the protocol has no such message.
    #[tactic(auto, unfolding(scmi_codec::specs::Listing::rows_of))]
    pub(crate) fn read(id: u8, words: &[u32]) -> Option<ClockReply>
        requires { length words.now ≤ PAYLOAD_WORDS }
        ensures { result ≡ clock_reply id words.now }
    {
        match (id, words) {
            (0x0, [version]) => Some(ClockReply::Version { version: *version }),
            (0x1, [word]) => Some(ClockReply::Attributes { attributes: *word }),
            (0x2, [word]) => Some(ClockReply::MessageAttributes { attributes: *word }),
            (0x3, [word, a, b, c, d]) => Some(ClockReply::ClockAttributes {
                attributes: *word,
                name: [*a, *b, *c, *d],
            }),
            (0x4, words) => rates_of(words),
            (0x5, []) => Some(ClockReply::SetRate),
            (0x6, [low, high]) => Some(ClockReply::GetRate {
                rate: rate_of(*low, *high),
            }),
            (0x7, []) => Some(ClockReply::Config),
            _ => None,
        }
    }
}

/// A flags word and as many rates as it gives, at least one; `None` if the number of words does
/// not match.
fn rates_of(words: &[u32]) -> Option<ClockReply>
    requires { length words.now ≤ PAYLOAD_WORDS }
    ensures { result ≡ rates_of words.now }
{
    match words {
        [flags, rates @ ..] if has_rates(*flags, rates.len()) => Some(ClockReply::Describe {
            flags: *flags,
            rates: payload_of(rates),
        }),
        _ => None,
    }
}

/// Whether a flags word encodes rates of this many words.
fn has_rates(flags: u32, words: usize) -> bool
    ensures { result ≡ has_rates flags words }
{
    let count = flags as usize % 4096;
    count != 0 && words == 2 * count
}
