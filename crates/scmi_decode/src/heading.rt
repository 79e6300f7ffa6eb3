//! The name of a message and its token, as they are written.

use crate::flags::Reserved;
use crate::names::{notification_name, protocol_name};
use scmi_codec::{Header, message_name};
use std::fmt;

/// The name of a command's message, or its ids.
#[derive(Clone, Copy)]
pub(crate) struct MessageName(pub(crate) Header);

/// The name of a notification, or its ids.
#[derive(Clone, Copy)]
pub(crate) struct NotificationName(pub(crate) Header);

/// The token of a header, and reserved bits that are set.
#[derive(Clone, Copy)]
pub(crate) struct Token(pub(crate) Header);

/// The token of a message that needs none, if there is one.
#[derive(Clone, Copy)]
pub(crate) struct OwnToken(pub(crate) Header);

impl fmt::Display for MessageName {
    fn fmt<W: fmt::Write>(&self, f: &mut fmt::Formatter<W>) -> fmt::Result {
        match message_name(self.0.protocol(), self.0.id()) {
            Some(name) => f.write_str(name),
            None => write_ids(f, self.0.protocol(), self.0.id()),
        }
    }
}

impl fmt::Display for NotificationName {
    fn fmt<W: fmt::Write>(&self, f: &mut fmt::Formatter<W>) -> fmt::Result {
        match notification_name(self.0.protocol(), self.0.id()) {
            Some(name) => f.write_str(name),
            None => write_ids(f, self.0.protocol(), self.0.id()),
        }
    }
}

/// Writes the ids of a message that has no name, and the name of its protocol if that has one.
fn write_ids<W: fmt::Write>(f: &mut fmt::Formatter<W>, protocol: u8, id: u8) -> fmt::Result {
    write!(f, "unknown message 0x{id:x} of protocol 0x{protocol:02x}")?;
    match protocol_name(protocol) {
        Some(name) => write!(f, " ({name})"),
        None => Ok(()),
    }
}

impl fmt::Display for Token {
    fn fmt<W: fmt::Write>(&self, f: &mut fmt::Formatter<W>) -> fmt::Result {
        let token = self.0.token();
        let reserved = Reserved(u32::from(self.0.reserved()));
        write!(f, "token {token}{reserved}")
    }
}

impl fmt::Display for OwnToken {
    fn fmt<W: fmt::Write>(&self, f: &mut fmt::Formatter<W>) -> fmt::Result {
        if self.0.token() == 0 && self.0.reserved() == 0 {
            return Ok(());
        }
        let token = Token(self.0);
        write!(f, ", {token}")
    }
}
