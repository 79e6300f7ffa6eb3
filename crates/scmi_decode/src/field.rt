//! The fields of messages.
ghost use Rattle.std.specs.Prelude.{◌≡◌, ◌≤◌, length};
ghost use Rattle.scmi_decode.specs.declared.field.TheConstants.{FIELDS};

use arrayvec::ArrayVec;

/// The most fields of a message.
pub const FIELDS: usize = 4;

/// The fields of a message, in their order.
pub type Fields = ArrayVec<Field, FIELDS>;

/// A field of a message and what it contains: a payload word, or the words that belong together.
#[derive(Clone, Copy)]
pub enum Field {
    /// The version of a protocol: the major number in bits [31:16], the minor one in [15:0].
    Version(u32),
    /// The attributes of the base protocol: agents in bits [15:8], protocols in [7:0].
    Counts(u32),
    /// The id of a message.
    Message(u32),
    /// The attributes of a message, with no bit named.
    Attributes(u32),
    /// A name of at most 16 bytes, the first one lowest; it stops before its first zero byte.
    Name([u32; 4]),
    /// The version of an implementation, in its vendor's own form.
    Implementation(u32),
    /// How many protocols of the list to leave out.
    Skip(u32),
    /// An agent that is asked for or described, 0xFFFFFFFF being the caller and 0 the platform.
    Agent(u32),
    /// The agent whose permissions or settings change, 0 being the platform; 0xFFFFFFFF is none.
    Subject(u32),
    Device(u32),
    Protocol(u32),
    /// Flags of a permission: bit 0 allows.
    PermitFlags(u32),
    /// Flags of a reset: bit 0 resets permissions too.
    ResetFlags(u32),
    /// The attributes of the power protocol: domains in bits [15:0].
    Domains(u32),
    /// Statistics memory: the address, its low word first, and the length in bytes.
    Statistics([u32; 3]),
    Domain(u32),
    /// Attributes of a domain: bit 31 notifications, 30 asynchronous sets, 29 synchronous sets.
    DomainAttributes(u32),
    /// Flags of a power state set: bit 0 asynchronous.
    PowerFlags(u32),
    /// A power state: 0 is ON, 0x40000000 is OFF.
    State(u32),
    /// Whether to notify: bit 0.
    Enable(u32),
    /// The attributes of the clock protocol: pending sets in bits [23:16], clocks in [15:0].
    Clocks(u32),
    Clock(u32),
    /// Attributes of a clock: bit 0 enables.
    ClockAttributes(u32),
    /// The first rate to describe.
    Index(u32),
    /// Flags of a rate set, as `scmi_codec::RateFlags`.
    RateFlags(u32),
    /// A rate in Hz.
    Rate(u64),
    /// The agent that caused a change, 0 being the platform.
    By(u32),
}

// A vector of fixed room holds this in its unused places.
impl Default for Field {
    fn default() -> Field {
        Field::Version(0)
    }
}

/// These fields, at most `FIELDS` of them.
pub(crate) fn fields_of(list: &[Field]) -> Fields
    requires { length list.now ≤ FIELDS }
    ensures { result.items ≡ list.now }
{
    let mut fields = ArrayVec::new();
    let _ = fields.try_extend_from_slice(list);
    fields
}
