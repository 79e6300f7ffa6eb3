//! The words of lines that report a message.

/// The name of Linux's event of a message, and how the names of all events of SCMI begin.
pub(crate) const EVENT: &[u8] = b"scmi_msg_dump:";

pub(crate) const EVENT_START: &[u8] = b"scmi_";

/// The names of the event's fields.
pub(crate) const KIND: &[u8] = b"t=";

pub(crate) const INSTANCE: &[u8] = b"id=";

pub(crate) const PROTOCOL: &[u8] = b"pt=";

pub(crate) const MESSAGE_ID: &[u8] = b"msg_id=";

pub(crate) const TOKEN: &[u8] = b"seq=";

pub(crate) const STATUS: &[u8] = b"s=";

pub(crate) const PAYLOAD: &[u8] = b"pyld=";

/// What the event is of.
pub(crate) const COMMAND: &[u8] = b"CMND";

pub(crate) const RESPONSE: &[u8] = b"RESP";

pub(crate) const DELAYED: &[u8] = b"DLYD";

pub(crate) const NOTIFICATION: &[u8] = b"NOTI";

/// What a run of a script writes of a message that an agent has got.
pub(crate) const REPLY: &[u8] = b"reply";

pub(crate) const GOT: &[u8] = b"got";

pub(crate) const P2A: &[u8] = b"p2a";
