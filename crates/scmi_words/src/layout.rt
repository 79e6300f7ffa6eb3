//! The places of the fields among the words of the table, and in the bytes of the area (DEN0056B,
//! shared memory transport).
use scmi_codec::PAYLOAD_WORDS;

/// The channel status, with two marks of our own above its 32 bits (own).
pub const STATUS: usize = 0;

/// The channel flags. They are always 0.
pub const FLAGS: usize = 1;

/// The length of header and payload, in bytes.
pub const LENGTH: usize = 2;

/// The message header.
pub const HEADER: usize = 3;

/// The first word of the payload.
pub const PAYLOAD: usize = 4;

/// The words of the table: four, and the payload.
pub const TABLE_WORDS: usize = PAYLOAD + PAYLOAD_WORDS;

/// The byte of the area at which the status begins.
pub const STATUS_AT: usize = 0x04;

/// The byte of the area at which the flags begin. The other fields follow, in the order of the words.
pub const FLAGS_AT: usize = 0x10;
