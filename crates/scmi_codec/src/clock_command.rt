//! The commands of the clock protocol.
ghost use Rattle.std.specs.Prelude.{◌≡◌};
ghost use Rattle.scmi_codec.specs.ClockCommand.{clock_of, clock_id, clock_words};
ghost use Rattle.scmi_codec.specs.Listing.{is_listed};

use crate::listing::misfit;
use crate::messages::{HeldRow, MessageRow, Part, rows};
use crate::payload::{Payload, payload_of};
use crate::rate::{rate_of, rate_words};
use crate::status::Status;

/// The id of the clock protocol.
pub const CLOCK_PROTOCOL: u8 = 0x14;

/// The version of the clock protocol: major 1, minor 0 (own).
pub const CLOCK_VERSION: u32 = 0x0001_0000;

/// The messages of the clock protocol, 0x14.
pub const CLOCK_MESSAGES: [HeldRow; 8] = rows![
    0x0 PROTOCOL_VERSION () -> (Version);
    0x1 PROTOCOL_ATTRIBUTES () -> (Clocks);
    0x2 PROTOCOL_MESSAGE_ATTRIBUTES (Message) -> (Attributes);
    0x3 CLOCK_ATTRIBUTES (Clock) -> (ClockAttributes, Name);
    0x4 CLOCK_DESCRIBE_RATES (Clock, Index) -> (Rates);
    0x5 CLOCK_RATE_SET (RateFlags, Clock, Rate) -> () later (Clock, Rate);
    0x6 CLOCK_RATE_GET (Clock) -> (Rate);
    0x7 CLOCK_CONFIG_SET (Clock, ClockAttributes) -> ();
];

/// A command of the clock protocol (DEN0056B, clock management protocol). Rates are in Hz.
#[derive(Clone, Copy, PartialEq, Eq, Debug)]
pub enum ClockCommand {
    Version,
    Attributes,
    MessageAttributes { message: u32 },
    ClockAttributes { clock: u32 },
    Describe { clock: u32, index: u32 },
    SetRate { flags: u32, clock: u32, rate: u64 },
    GetRate { clock: u32 },
    Config { clock: u32, attributes: u32 },
}

impl ClockCommand {
    /// Whether the protocol has a message. An image that only answers has the ids from here, and none
    /// of the tables.
    #[tactic(auto, unfolding(crate::specs::Listing::rows_of))]
    pub(crate) fn has(id: u32) -> bool
        ensures { result ≡ is_listed 0x14 id }
    {
        id <= 0x7
    }

    /// The command of a message id and payload words: NOT_SUPPORTED for an unknown id, then
    /// PROTOCOL_ERROR for another number of words than the command has.
    #[tactic(auto, unfolding(crate::specs::Listing::rows_of))]
    #[inline(always)]
    pub(crate) fn read(id: u8, words: &[u32]) -> Result<ClockCommand, Status>
        ensures { result ≡ clock_of id words.now }
    {
        match (id, words) {
            (0x0, []) => Ok(ClockCommand::Version),
            (0x1, []) => Ok(ClockCommand::Attributes),
            (0x2, [message]) => Ok(ClockCommand::MessageAttributes { message: *message }),
            (0x3, [clock]) => Ok(ClockCommand::ClockAttributes { clock: *clock }),
            (0x4, [clock, index]) => Ok(ClockCommand::Describe {
                clock: *clock,
                index: *index,
            }),
            (0x5, [flags, clock, low, high]) => Ok(ClockCommand::SetRate {
                flags: *flags,
                clock: *clock,
                rate: rate_of(*low, *high),
            }),
            (0x6, [clock]) => Ok(ClockCommand::GetRate { clock: *clock }),
            (0x7, [clock, attributes]) => Ok(ClockCommand::Config {
                clock: *clock,
                attributes: *attributes,
            }),
            _ => Err(misfit(CLOCK_PROTOCOL, id)),
        }
    }

    pub(crate) fn id(&self) -> u8
        ensures { result ≡ clock_id self.now }
    {
        match self {
            ClockCommand::Version => 0x0,
            ClockCommand::Attributes => 0x1,
            ClockCommand::MessageAttributes { .. } => 0x2,
            ClockCommand::ClockAttributes { .. } => 0x3,
            ClockCommand::Describe { .. } => 0x4,
            ClockCommand::SetRate { .. } => 0x5,
            ClockCommand::GetRate { .. } => 0x6,
            ClockCommand::Config { .. } => 0x7,
        }
    }

    pub(crate) fn payload(&self) -> Payload
        ensures { result.items ≡ clock_words self.now }
    {
        match self {
            ClockCommand::MessageAttributes { message } => payload_of(&[*message]),
            ClockCommand::ClockAttributes { clock } => payload_of(&[*clock]),
            ClockCommand::Describe { clock, index } => payload_of(&[*clock, *index]),
            ClockCommand::SetRate { flags, clock, rate } => {
                let [low, high] = rate_words(*rate);
                payload_of(&[*flags, *clock, low, high])
            }
            ClockCommand::GetRate { clock } => payload_of(&[*clock]),
            ClockCommand::Config { clock, attributes } => payload_of(&[*clock, *attributes]),
            _ => payload_of(&[]),
        }
    }
}
