//! What replies of the base protocol give.
ghost use Rattle.std.specs.Prelude.{◌≡◌, ◌≤◌, length};
ghost use Rattle.scmi_codec.specs.declared.payload.TheConstants.{PAYLOAD_WORDS};
ghost use Rattle.scmi_agent.specs.BaseReply.{base_reply, protocols_of};

use scmi_codec::{Payload, payload_of};

/// What a reply of the base protocol with status SUCCESS gives: the parts after its status. A name
/// is its four words, the first byte lowest.
#[derive(Clone, PartialEq, Eq, Debug, Drop)]
pub enum BaseReply {
    Version { version: u32 },
    /// Agents in bits [15:8], protocols in [7:0].
    Attributes { attributes: u32 },
    MessageAttributes { attributes: u32 },
    Vendor { name: [u32; 4] },
    SubVendor { name: [u32; 4] },
    Implementation { version: u32 },
    /// That many ids of protocols, four to a word, the lowest byte first.
    Protocols { count: u32, ids: Payload },
    Agent { agent: u32, name: [u32; 4] },
    Permit,
    PermitProtocol,
    ResetAgent,
}

impl BaseReply {
    /// What words after the status SUCCESS give as the reply to a message of this id; `None` if its
    /// reply has another number of words, or the protocol has no such message.
    #[tactic(auto, unfolding(scmi_codec::specs::Listing::rows_of))]
    pub(crate) fn read(id: u8, words: &[u32]) -> Option<BaseReply>
        requires { length words.now ≤ PAYLOAD_WORDS }
        ensures { result ≡ base_reply id words.now }
    {
        match (id, words) {
            (0x0, [version]) => Some(BaseReply::Version { version: *version }),
            (0x1, [word]) => Some(BaseReply::Attributes { attributes: *word }),
            (0x2, [word]) => Some(BaseReply::MessageAttributes { attributes: *word }),
            (0x3, [a, b, c, d]) => Some(BaseReply::Vendor {
                name: [*a, *b, *c, *d],
            }),
            (0x4, [a, b, c, d]) => Some(BaseReply::SubVendor {
                name: [*a, *b, *c, *d],
            }),
            (0x5, [version]) => Some(BaseReply::Implementation { version: *version }),
            (0x6, words) => protocols_of(words),
            (0x7, [agent, a, b, c, d]) => Some(BaseReply::Agent {
                agent: *agent,
                name: [*a, *b, *c, *d],
            }),
            (0x9, []) => Some(BaseReply::Permit),
            (0xa, []) => Some(BaseReply::PermitProtocol),
            (0xb, []) => Some(BaseReply::ResetAgent),
            _ => None,
        }
    }
}

/// A number, and that many protocol ids; `None` if the number of words does not match.
fn protocols_of(words: &[u32]) -> Option<BaseReply>
    requires { length words.now ≤ PAYLOAD_WORDS }
    ensures { result ≡ protocols_of words.now }
{
    match words {
        [count, ids @ ..] if ids.len() == (*count as usize + 3) / 4 => {
            Some(BaseReply::Protocols {
                count: *count,
                ids: payload_of(ids),
            })
        }
        _ => None,
    }
}
