//! The messages of SCMI (DEN0056B, version 2.0) and their bytes in the shared area of a channel.
//!
//! The main types are `Message`, a header with its payload, and `Command`, what a message asks for.
//! The main theorems are the contracts of `read_area`, `write_message` and `write_answer` (what the
//! bytes of an area encode, every other byte kept; `read_channel_area` and its kin are the same in
//! an area of the size that a board gives a channel) and of `Command::read` and `pack` (each undoes
//! the other).
#![tactic(auto)]

mod area;
mod area_layout;
mod area_reader;
mod area_writer;
mod base_command;
mod channel_area;
mod channel_status;
mod clock_command;
mod command;
mod fault;
mod flag_word;
mod frame;
mod header;
mod listing;
mod message;
mod messages;
mod name;
mod payload;
mod power_command;
mod protocols;
mod rate;
mod rate_flags;
mod status;
mod word;

pub use area::{
    AREA_BYTES, AreaError, frame_of, is_free, is_well_formed, read_area, read_area_into,
    write_answer, write_message, write_reply, write_response,
};
pub use area_reader::status_at;
pub use base_command::{BASE_MESSAGES, BASE_PROTOCOL, BASE_VERSION, BaseCommand};
pub use channel_area::{
    ChannelAreaError, LEAST_AREA_BYTES, LEAST_PAYLOAD_WORDS, channel_bytes, channel_frame,
    channel_words, is_channel_free, is_channel_size, read_channel_area, read_channel_area_into,
    write_channel_answer, write_channel_error, write_channel_message, write_channel_reply,
    write_channel_response,
};
pub use channel_status::ChannelStatus;
pub use clock_command::{CLOCK_MESSAGES, CLOCK_PROTOCOL, CLOCK_VERSION, ClockCommand};
pub use command::Command;
pub use fault::Fault;
pub use flag_word::single_flag;
pub use frame::{Answer, Frame};
pub use header::{DELAYED_RESPONSE, Header, NOTIFICATION, TOKENS};
pub use listing::{is_listed, listed_row, message_name, rows_of, wanted_words};
pub use message::Message;
pub use messages::{HeldRow, MessageRow, Part};
pub use name::{NAME_BYTES, Name, four_words, name_words};
pub use payload::{
    PAYLOAD_WORDS, Payload, SUCCESS, is_success, payload_of, refusal, resize, set_payload,
    set_refusal,
};
pub use power_command::{POWER_MESSAGES, POWER_PROTOCOL, POWER_VERSION, PowerCommand};
pub use protocols::{HeldProtocol, PROTOCOLS, ProtocolRow, protocol_row};
pub use rate::{rate_of, rate_words};
pub use rate_flags::RateFlags;
pub use status::{STATUSES, Status, StatusRow};
pub use word::write_word;
