//! Messages and protocols by their names.
ghost use Rattle.std.specs.Prelude.{◌≡◌, None, map};
ghost use Rattle.scmi_codec.specs.Listing.{protocol_said, said};
ghost use Rattle.scmi_live.specs.Messages.{id_in, id_of, message_named, only_in, protocol_in, protocol_named, protocol_of};

use scmi_board::byte;
use scmi_codec::{HeldProtocol, HeldRow, PROTOCOLS, rows_of};

/// The protocol that an item encodes: its number, or its name.
pub(crate) fn protocol_of(item: &[u8]) -> Option<u8>
    ensures { result ≡ protocol_of item.now }
{
    match byte(item) {
        Some(protocol) => Some(protocol),
        None => protocol_named(item),
    }
}

/// The protocol of this name.
pub(crate) fn protocol_named(item: &[u8]) -> Option<u8>
    ensures { result ≡ protocol_named item.now }
{
    protocol_in(&PROTOCOLS, item)
}

/// The first of these protocols that has this name.
fn protocol_in(mut rows: &[HeldProtocol], name: &[u8]) -> Option<u8>
    ensures { result ≡ protocol_in name.now (map protocol_said rows.entry.now) }
{
    while let [row, rest @ ..] = rows {
        if row.name.as_bytes() == name {
            return Some(row.id);
        }
        rows = rest;
    }
    None
}

/// The message id that an item encodes in a protocol: its number, or its name.
pub(crate) fn id_of(protocol: u8, item: &[u8]) -> Option<u8>
    ensures { result ≡ id_of protocol item.now }
{
    match byte(item) {
        Some(id) => Some(id),
        None => id_in(rows_of(protocol), item),
    }
}

/// The protocol and id of the message of this name; `None` if more than one protocol has it, or
/// none.
pub(crate) fn message_named(item: &[u8]) -> Option<(u8, u8)>
    ensures { result ≡ message_named item.now }
{
    only_in(&PROTOCOLS, item)
}

/// The message of this name that one of these protocols has, and no other of them.
fn only_in(mut rows: &[HeldProtocol], name: &[u8]) -> Option<(u8, u8)>
    ensures { result ≡ only_in name.now None (map protocol_said rows.entry.now) }
{
    let mut found: Option<(u8, u8)> = None;
    while let [row, rest @ ..] = rows {
        if let Some(id) = id_in(row.messages, name) {
            if found.is_some() {
                return None;
            }
            found = Some((row.id, id));
        }
        rows = rest;
    }
    found
}

/// The id of the first of these messages that has this name.
pub(crate) fn id_in(mut rows: &[HeldRow], name: &[u8]) -> Option<u8>
    ensures { result ≡ id_in name.now (map said rows.entry.now) }
{
    while let [row, rest @ ..] = rows {
        if row.name.as_bytes() == name {
            return Some(row.id);
        }
        rows = rest;
    }
    None
}
