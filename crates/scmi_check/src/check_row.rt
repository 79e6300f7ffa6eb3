//! The checks of the profile that decide the answer to a command, and their words.
use scmi_codec::Status;

/// To which commands a row belongs.
#[derive(Clone, Copy)]
pub(crate) enum When {
    /// The message is of another type than 0.
    OtherType,
    /// The profile lacks the protocol.
    UnknownProtocol,
    /// The protocol lacks the message id.
    UnknownMessage,
    /// The command has another number of payload words.
    OtherSize,
    /// The command of this protocol and message id.
    Command(u8, u8),
    /// The same, with a reserved bit of its flags set.
    ReservedFlags(u8, u8),
}

/// The word of the check of a command that gives a status.
#[derive(Clone, Copy)]
pub(crate) struct CheckRow {
    pub when: When,
    pub status: Status,
    pub word: &'static str,
}

macro_rules! rows {
    ($($when:ident $(($protocol:literal $id:literal))? $status:ident $word:literal;)*) => {
        [$(CheckRow {
            when: When::$when $(($protocol, $id))?,
            status: Status::$status,
            word: $word,
        }),*]
    };
}

/// The word of the check of a frame, which gives a channel error.
pub(crate) const LENGTH: &str = "length";

/// The checks of all messages and of each command (`docs/PROTOCOL.md`), by the status that they
/// give. If two rows fit, the first one counts.
pub(crate) const CHECKS: [CheckRow; 43] = rows![
    OtherType ProtocolError "type";
    UnknownProtocol NotSupported "unknown-protocol";
    UnknownMessage NotSupported "unknown-message";
    OtherSize ProtocolError "payload-size";
    Command(0x10 0x2) NotFound "unknown-message";
    Command(0x10 0x6) InvalidParameters "skip";
    Command(0x10 0x7) NotFound "unknown-agent";
    Command(0x10 0x9) NotFound "unknown-agent-or-device";
    Command(0x10 0x9) InvalidParameters "reserved-bits";
    Command(0x10 0x9) Denied "not-trusted";
    Command(0x10 0xa) NotFound "unknown-agent-device-or-protocol";
    Command(0x10 0xa) InvalidParameters "reserved-bits";
    Command(0x10 0xa) Denied "not-trusted";
    Command(0x10 0xb) NotFound "unknown-agent";
    Command(0x10 0xb) InvalidParameters "reserved-bits";
    Command(0x10 0xb) Denied "not-trusted";
    Command(0x11 0x2) NotFound "unknown-message";
    Command(0x11 0x3) NotFound "unknown-domain";
    Command(0x11 0x4) NotFound "unknown-domain";
    ReservedFlags(0x11 0x4) InvalidParameters "reserved-bits";
    Command(0x11 0x4) InvalidParameters "state";
    Command(0x11 0x4) NotSupported "kind-of-set";
    Command(0x11 0x4) Denied "permission";
    Command(0x11 0x4) Busy "pending";
    Command(0x11 0x5) NotFound "unknown-domain";
    Command(0x11 0x6) NotFound "unknown-domain";
    Command(0x11 0x6) InvalidParameters "reserved-bits";
    Command(0x11 0x6) NotSupported "notifications";
    Command(0x11 0x6) Denied "permission";
    Command(0x14 0x2) NotFound "unknown-message";
    Command(0x14 0x3) NotFound "unknown-clock";
    Command(0x14 0x4) NotFound "unknown-clock";
    Command(0x14 0x4) OutOfRange "index";
    Command(0x14 0x5) NotFound "unknown-clock";
    ReservedFlags(0x14 0x5) InvalidParameters "reserved-bits";
    Command(0x14 0x5) InvalidParameters "rate";
    Command(0x14 0x5) NotSupported "one-way";
    Command(0x14 0x5) Denied "permission";
    Command(0x14 0x5) Busy "pending";
    Command(0x14 0x6) NotFound "unknown-clock";
    Command(0x14 0x7) NotFound "unknown-clock";
    Command(0x14 0x7) InvalidParameters "reserved-bits";
    Command(0x14 0x7) Denied "permission";
];
