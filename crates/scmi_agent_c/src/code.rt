//! What calls gave, as numbers for C.

/// The call did what it is for.
pub const DONE: u32 = 0;

/// The reply to the command before it was not read.
pub const OUTSTANDING: u32 = 1;

/// A message is in the area.
pub const NOT_FREE: u32 = 2;

/// No command is outstanding.
pub const NOT_POSTED: u32 = 3;

/// Nothing is in the area yet.
pub const NOTHING: u32 = 4;

/// The platform marked the channel free with the error bit.
pub const CHANNEL_ERROR: u32 = 5;

/// The length of header and payload is not well formed.
pub const MALFORMED: u32 = 6;

/// The message is another than the one that is looked for.
pub const FOREIGN: u32 = 7;

/// The message has another number of payload words.
pub const WRONG_WORDS: u32 = 8;

/// The status of the message is no code of DEN0056B.
pub const UNKNOWN_STATUS: u32 = 9;
