//! The commands of the base protocol.
ghost use Rattle.std.specs.Prelude.{◌≡◌};
ghost use Rattle.scmi_codec.specs.BaseCommand.{base_of, base_id, base_words};
ghost use Rattle.scmi_codec.specs.Listing.{is_listed};

use crate::listing::misfit;
use crate::messages::{HeldRow, MessageRow, Part, rows};
use crate::payload::{Payload, payload_of};
use crate::status::Status;

/// The id of the base protocol.
pub const BASE_PROTOCOL: u8 = 0x10;

/// The version of the base protocol: major 2, minor 0.
pub const BASE_VERSION: u32 = 0x0002_0000;

/// The messages of the base protocol, 0x10.
pub const BASE_MESSAGES: [HeldRow; 11] = rows![
    0x0 PROTOCOL_VERSION () -> (Version);
    0x1 PROTOCOL_ATTRIBUTES () -> (Counts);
    0x2 PROTOCOL_MESSAGE_ATTRIBUTES (Message) -> (Attributes);
    0x3 BASE_DISCOVER_VENDOR () -> (Name);
    0x4 BASE_DISCOVER_SUB_VENDOR () -> (Name);
    0x5 BASE_DISCOVER_IMPLEMENTATION_VERSION () -> (Implementation);
    0x6 BASE_DISCOVER_LIST_PROTOCOLS (Skip) -> (Protocols);
    0x7 BASE_DISCOVER_AGENT (Agent) -> (Agent, Name);
    0x9 BASE_SET_DEVICE_PERMISSIONS (Subject, Device, PermitFlags) -> ();
    0xa BASE_SET_PROTOCOL_PERMISSIONS (Subject, Device, Protocol, PermitFlags) -> ();
    0xb BASE_RESET_AGENT_CONFIGURATION (Subject, ResetFlags) -> ();
];

/// A command of the base protocol (DEN0056B, base protocol).
#[derive(Clone, Copy, PartialEq, Eq, Debug)]
pub enum BaseCommand {
    Version,
    Attributes,
    MessageAttributes {
        message: u32,
    },
    Vendor,
    SubVendor,
    Implementation,
    Protocols {
        skip: u32,
    },
    Agent {
        agent: u32,
    },
    Permit {
        agent: u32,
        device: u32,
        flags: u32,
    },
    PermitProtocol {
        agent: u32,
        device: u32,
        protocol: u32,
        flags: u32,
    },
    ResetAgent {
        agent: u32,
        flags: u32,
    },
}

impl BaseCommand {
    /// Whether the protocol has a message. An image that only answers has the ids from here, and none
    /// of the tables.
    #[tactic(auto, unfolding(crate::specs::Listing::rows_of))]
    pub(crate) fn has(id: u32) -> bool
        ensures { result ≡ is_listed 0x10 id }
    {
        id < 0x8 || id >= 0x9 && id <= 0xb
    }

    /// The command of a message id and payload words: NOT_SUPPORTED for an unknown id, then
    /// PROTOCOL_ERROR for another number of words than the command has.
    #[tactic(auto, unfolding(crate::specs::Listing::rows_of))]
    #[inline(always)]
    pub(crate) fn read(id: u8, words: &[u32]) -> Result<BaseCommand, Status>
        ensures { result ≡ base_of id words.now }
    {
        match (id, words) {
            (0x0, []) => Ok(BaseCommand::Version),
            (0x1, []) => Ok(BaseCommand::Attributes),
            (0x2, [message]) => Ok(BaseCommand::MessageAttributes { message: *message }),
            (0x3, []) => Ok(BaseCommand::Vendor),
            (0x4, []) => Ok(BaseCommand::SubVendor),
            (0x5, []) => Ok(BaseCommand::Implementation),
            (0x6, [skip]) => Ok(BaseCommand::Protocols { skip: *skip }),
            (0x7, [agent]) => Ok(BaseCommand::Agent { agent: *agent }),
            (0x9, [agent, device, flags]) => Ok(BaseCommand::Permit {
                agent: *agent,
                device: *device,
                flags: *flags,
            }),
            (0xa, [agent, device, protocol, flags]) => Ok(BaseCommand::PermitProtocol {
                agent: *agent,
                device: *device,
                protocol: *protocol,
                flags: *flags,
            }),
            (0xb, [agent, flags]) => Ok(BaseCommand::ResetAgent {
                agent: *agent,
                flags: *flags,
            }),
            _ => Err(misfit(BASE_PROTOCOL, id)),
        }
    }

    pub(crate) fn id(&self) -> u8
        ensures { result ≡ base_id self.now }
    {
        match self {
            BaseCommand::Version => 0x0,
            BaseCommand::Attributes => 0x1,
            BaseCommand::MessageAttributes { .. } => 0x2,
            BaseCommand::Vendor => 0x3,
            BaseCommand::SubVendor => 0x4,
            BaseCommand::Implementation => 0x5,
            BaseCommand::Protocols { .. } => 0x6,
            BaseCommand::Agent { .. } => 0x7,
            BaseCommand::Permit { .. } => 0x9,
            BaseCommand::PermitProtocol { .. } => 0xa,
            BaseCommand::ResetAgent { .. } => 0xb,
        }
    }

    pub(crate) fn payload(&self) -> Payload
        ensures { result.items ≡ base_words self.now }
    {
        match self {
            BaseCommand::MessageAttributes { message } => payload_of(&[*message]),
            BaseCommand::Protocols { skip } => payload_of(&[*skip]),
            BaseCommand::Agent { agent } => payload_of(&[*agent]),
            BaseCommand::Permit {
                agent,
                device,
                flags,
            } => payload_of(&[*agent, *device, *flags]),
            BaseCommand::PermitProtocol {
                agent,
                device,
                protocol,
                flags,
            } => payload_of(&[*agent, *device, *protocol, *flags]),
            BaseCommand::ResetAgent { agent, flags } => payload_of(&[*agent, *flags]),
            _ => payload_of(&[]),
        }
    }
}
