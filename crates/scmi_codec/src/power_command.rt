//! The commands of the power domain protocol.
ghost use Rattle.std.specs.Prelude.{◌≡◌};
ghost use Rattle.scmi_codec.specs.PowerCommand.{power_of, power_id, power_words};
ghost use Rattle.scmi_codec.specs.Listing.{is_listed};

use crate::listing::misfit;
use crate::messages::{HeldRow, MessageRow, Part, rows};
use crate::payload::{Payload, payload_of};
use crate::status::Status;

/// The id of the power domain protocol.
pub const POWER_PROTOCOL: u8 = 0x11;

/// The version of the power domain protocol: major 2, minor 0.
pub const POWER_VERSION: u32 = 0x0002_0000;

/// The messages of the power domain protocol, 0x11.
pub const POWER_MESSAGES: [HeldRow; 7] = rows![
    0x0 PROTOCOL_VERSION () -> (Version);
    0x1 PROTOCOL_ATTRIBUTES () -> (Domains, Statistics);
    0x2 PROTOCOL_MESSAGE_ATTRIBUTES (Message) -> (Attributes);
    0x3 POWER_DOMAIN_ATTRIBUTES (Domain) -> (DomainAttributes, Name);
    0x4 POWER_STATE_SET (PowerFlags, Domain, State) -> () later (Domain, State);
    0x5 POWER_STATE_GET (Domain) -> (State);
    0x6 POWER_STATE_NOTIFY (Domain, Enable) -> ();
];

/// A command of the power domain protocol (DEN0056B, power domain management protocol).
#[derive(Clone, Copy, PartialEq, Eq, Debug)]
pub enum PowerCommand {
    Version,
    Attributes,
    MessageAttributes { message: u32 },
    DomainAttributes { domain: u32 },
    Set { flags: u32, domain: u32, state: u32 },
    Get { domain: u32 },
    Notify { domain: u32, enable: u32 },
}

impl PowerCommand {
    /// Whether the protocol has a message. An image that only answers has the ids from here, and none
    /// of the tables.
    #[tactic(auto, unfolding(crate::specs::Listing::rows_of))]
    pub(crate) fn has(id: u32) -> bool
        ensures { result ≡ is_listed 0x11 id }
    {
        id <= 0x6
    }

    /// The command of a message id and payload words: NOT_SUPPORTED for an unknown id, then
    /// PROTOCOL_ERROR for another number of words than the command has.
    #[tactic(auto, unfolding(crate::specs::Listing::rows_of))]
    #[inline(always)]
    pub(crate) fn read(id: u8, words: &[u32]) -> Result<PowerCommand, Status>
        ensures { result ≡ power_of id words.now }
    {
        match (id, words) {
            (0x0, []) => Ok(PowerCommand::Version),
            (0x1, []) => Ok(PowerCommand::Attributes),
            (0x2, [message]) => Ok(PowerCommand::MessageAttributes { message: *message }),
            (0x3, [domain]) => Ok(PowerCommand::DomainAttributes { domain: *domain }),
            (0x4, [flags, domain, state]) => Ok(PowerCommand::Set {
                flags: *flags,
                domain: *domain,
                state: *state,
            }),
            (0x5, [domain]) => Ok(PowerCommand::Get { domain: *domain }),
            (0x6, [domain, enable]) => Ok(PowerCommand::Notify {
                domain: *domain,
                enable: *enable,
            }),
            _ => Err(misfit(POWER_PROTOCOL, id)),
        }
    }

    pub(crate) fn id(&self) -> u8
        ensures { result ≡ power_id self.now }
    {
        match self {
            PowerCommand::Version => 0x0,
            PowerCommand::Attributes => 0x1,
            PowerCommand::MessageAttributes { .. } => 0x2,
            PowerCommand::DomainAttributes { .. } => 0x3,
            PowerCommand::Set { .. } => 0x4,
            PowerCommand::Get { .. } => 0x5,
            PowerCommand::Notify { .. } => 0x6,
        }
    }

    pub(crate) fn payload(&self) -> Payload
        ensures { result.items ≡ power_words self.now }
    {
        match self {
            PowerCommand::MessageAttributes { message } => payload_of(&[*message]),
            PowerCommand::DomainAttributes { domain } => payload_of(&[*domain]),
            PowerCommand::Set {
                flags,
                domain,
                state,
            } => payload_of(&[*flags, *domain, *state]),
            PowerCommand::Get { domain } => payload_of(&[*domain]),
            PowerCommand::Notify { domain, enable } => payload_of(&[*domain, *enable]),
            _ => payload_of(&[]),
        }
    }
}
