//! The header word of a message.
ghost use Rattle.std.specs.Prelude.{◌≡◌, ◌<◌, ◌^◌};
ghost use Rattle.scmi_codec.specs.Command.{protocol_header};
ghost use Rattle.scmi_codec.specs.declared.header.TheConstants.{TOKENS};
ghost use Rattle.scmi_codec.specs.Header.{header_of, header_word};

use std::marker::Model;

/// How many tokens a header distinguishes: 10 bits (DEN0056B, message header).
pub const TOKENS: u16 = 1024;

/// The type of a delayed response (DEN0056B, message header).
pub const DELAYED_RESPONSE: u8 = 2;

/// The type of a notification (DEN0056B, message header).
pub const NOTIFICATION: u8 = 3;

/// The fields of a message header (DEN0056B, message header), each within its width in bits:
/// reserved 4, token 10, protocol 8, kind (the message type) 2, id 8.
///
/// The type is 0 for a command and its response, 2 for a delayed response, 3 for a notification.
#[derive(Clone, Copy, PartialEq, Eq, Debug)]
pub struct Header {
    pub reserved: u8,
    pub token: u16,
    pub protocol: u8,
    pub kind: u8,
    pub id: u8,
}

impl Model for Header {
    ghost use Rattle.scmi_codec.specs.Header.{HeaderFields, FitsWidths};

    ghost Value = { HeaderFields };

    ghost view = { λ h. record {
      reserved = h.reserved;
      token = h.token;
      protocol = h.protocol;
      kind = h.kind;
      id = h.id;
    } };

    ghost invariant = { λ h. FitsWidths (record {
      reserved = h.reserved;
      token = h.token;
      protocol = h.protocol;
      kind = h.kind;
      id = h.id;
    }) };

    ghost inverse = { λ h. record {
      reserved = h.reserved;
      token = h.token;
      protocol = h.protocol;
      kind = h.kind;
      id = h.id;
    } };
}

// What a place without a message contains.
impl Default for Header {
    fn default() -> Header {
        Header::unpack(0)
    }
}

impl Header {
    /// The header of a command, with reserved bits 0.
    pub fn command(protocol: u8, token: u16, id: u8) -> Header
        requires token { token < TOKENS }
        ensures fields { result ≡ protocol_header protocol token id }
    {
        Header::new(0, protocol, token, id)
    }

    /// The header of a message of this type, with reserved bits 0.
    pub fn new(kind: u8, protocol: u8, token: u16, id: u8) -> Header
        requires kind { kind < 2 ^ 2 }
        requires token { token < TOKENS }
        ensures fields { result ≡ (record (protocol_header protocol token id) { kind = kind }) }
    {
        Header {
            reserved: 0,
            token,
            protocol,
            kind,
            id,
        }
    }

    /// The same header with another token.
    pub fn with_token(self, token: u16) -> Header
        requires token { token < TOKENS }
        ensures fields { result ≡ record self { token = token } }
    {
        Header { token, ..self }
    }

    /// The header of this word.
    pub fn unpack(word: u32) -> Header
        ensures fields { result ≡ header_of word }
        ensures back { header_word result ≡ word }
    {
        Header {
            reserved: (word >> 28) as u8,
            token: ((word >> 18) & 0x3ff) as u16,
            protocol: ((word >> 10) & 0xff) as u8,
            kind: ((word >> 8) & 0x3) as u8,
            id: (word & 0xff) as u8,
        }
    }

    /// The header word of the fields.
    pub fn pack(&self) -> u32
        ensures word { result ≡ header_word self.now }
        ensures back { header_of result ≡ self.now }
    {
        (u32::from(self.reserved) << 28)
            | (u32::from(self.token) << 18)
            | (u32::from(self.protocol) << 10)
            | (u32::from(self.kind) << 8)
            | u32::from(self.id)
    }

    /// The reserved bits.
    pub fn reserved(&self) -> u8
        ensures { result ≡ self.now.reserved }
    {
        self.reserved
    }

    /// The token.
    pub fn token(&self) -> u16
        ensures { result ≡ self.now.token }
    {
        self.token
    }

    /// The protocol.
    pub fn protocol(&self) -> u8
        ensures { result ≡ self.now.protocol }
    {
        self.protocol
    }

    /// The message type.
    pub fn kind(&self) -> u8
        ensures { result ≡ self.now.kind }
    {
        self.kind
    }

    /// The message id.
    pub fn id(&self) -> u8
        ensures { result ≡ self.now.id }
    {
        self.id
    }
}
