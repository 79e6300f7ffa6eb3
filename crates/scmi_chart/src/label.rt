//! What messages are about, in words.

use crate::mark::Label;
use crate::value::{Value, filled_words};
use scmi_codec::message_name;
use scmi_decode::protocol_name;
use std::alloc::{AllocError, Global};

/// A label without words.
pub(crate) fn empty_label(alloc: Global) -> Label {
    Label {
        name: Vec::new(alloc),
        object: Vec::new(alloc),
        value: Vec::new(alloc),
        tag: Vec::new(alloc),
    }
}

/// The name of a message; if the profile has none, its protocol and id.
pub(crate) fn name_of(alloc: Global, protocol: u8, id: u8) -> Result<Vec<u8>, AllocError> {
    if let Some(name) = message_name(protocol, id) {
        return Vec::from_slice(alloc, name.as_bytes());
    }
    let protocol = protocol_words(alloc, u32::from(protocol))?;
    let ids = [Value::Words(&protocol), Value::Hex(u32::from(id))];
    filled_words(alloc, "% %", &ids)
}

/// The short name of a protocol, or its number.
pub(crate) fn protocol_words(alloc: Global, protocol: u32) -> Result<Vec<u8>, AllocError> {
    if protocol <= 0xff
        && let Some(name) = protocol_name(protocol as u8)
    {
        return Vec::from_slice(alloc, name.as_bytes());
    }
    filled_words(alloc, "protocol %", &[Value::Hex(protocol)])
}

/// Adds words after the present ones, with a comma between.
pub(crate) fn add_behind(words: &mut Vec<u8>, more: &[u8]) -> Result<(), AllocError> {
    if !words.is_empty() {
        words.extend_from_slice(b", ")?;
    }
    words.extend_from_slice(more)
}

/// Adds a comment.
pub(crate) fn add_remark(label: &mut Label, words: &[u8]) -> Result<(), AllocError> {
    add_behind(&mut label.tag, words)
}
