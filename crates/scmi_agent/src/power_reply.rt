//! What replies of the power domain protocol give.
ghost use Rattle.std.specs.Prelude.{◌≡◌};
ghost use Rattle.scmi_agent.specs.PowerReply.{power_reply};

/// What a reply of the power domain protocol with status SUCCESS gives: the parts after its status.
/// A name is its four words, the first byte lowest.
#[derive(Clone, Copy, PartialEq, Eq, Debug)]
pub enum PowerReply {
    Version { version: u32 },
    /// Domains in bits [15:0]; the statistics are an address, its low word first, and a length in bytes.
    Attributes { domains: u32, statistics: [u32; 3] },
    MessageAttributes { attributes: u32 },
    /// Bit 31 notifications, 30 asynchronous sets, 29 synchronous sets.
    DomainAttributes { attributes: u32, name: [u32; 4] },
    Set,
    Get { state: u32 },
    Notify,
}

impl PowerReply {
    /// What words after the status SUCCESS give as the reply to a message of this id; `None` if its
    /// reply has another number of words, or the protocol has no such message.
    #[tactic(auto, unfolding(scmi_codec::specs::Listing::rows_of))]
    pub(crate) fn read(id: u8, words: &[u32]) -> Option<PowerReply>
        ensures { result ≡ power_reply id words.now }
    {
        match (id, words) {
            (0x0, [version]) => Some(PowerReply::Version { version: *version }),
            (0x1, [domains, low, high, length]) => Some(PowerReply::Attributes {
                domains: *domains,
                statistics: [*low, *high, *length],
            }),
            (0x2, [word]) => Some(PowerReply::MessageAttributes { attributes: *word }),
            (0x3, [word, a, b, c, d]) => Some(PowerReply::DomainAttributes {
                attributes: *word,
                name: [*a, *b, *c, *d],
            }),
            (0x4, []) => Some(PowerReply::Set),
            (0x5, [state]) => Some(PowerReply::Get { state: *state }),
            (0x6, []) => Some(PowerReply::Notify),
            _ => None,
        }
    }
}
