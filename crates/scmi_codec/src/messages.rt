//! The messages of the profile, by protocol: the one place where a message's name and the parts of
//! its payloads are written. Code looks them up, and definitions cite them.

/// What a payload word, or the words that belong together, encode.
#[derive(Clone, Copy, PartialEq, Eq, Debug)]
pub enum Part {
    /// The version of a protocol.
    Version,
    /// The attributes of the base protocol.
    Counts,
    /// The id of a message.
    Message,
    /// The attributes of a message.
    Attributes,
    /// A name of 16 bytes: four words.
    Name,
    /// The version of an implementation.
    Implementation,
    /// How many protocols to leave out.
    Skip,
    /// A number, and that many ids of protocols, four to a word.
    Protocols,
    /// An agent that a message asks for or describes; 0xFFFFFFFF is the caller.
    Agent,
    /// An agent whose permissions or settings a message changes.
    Subject,
    Device,
    Protocol,
    PermitFlags,
    ResetFlags,
    /// The attributes of the power protocol.
    Domains,
    /// Statistics memory: an address and a length, three words.
    Statistics,
    Domain,
    DomainAttributes,
    PowerFlags,
    State,
    Enable,
    /// The attributes of the clock protocol.
    Clocks,
    Clock,
    ClockAttributes,
    Index,
    /// Flags with a number, and that many rates, at least one.
    Rates,
    RateFlags,
    /// A rate in Hz: two words.
    Rate,
}

/// A message: its id, its name in DEN0056B, the parts of its payload, of its reply after the
/// status, and of its delayed response after the status.
///
/// It is generic because a constant has a name in definitions only if its struct holds no reference
/// of its own.
#[derive(Clone, Copy)]
pub struct MessageRow<N, P> {
    pub id: u8,
    pub name: N,
    pub asks: P,
    pub gives: P,
    pub later: P,
}

/// A row of the tables.
pub type HeldRow = MessageRow<&'static str, &'static [Part]>;

macro_rules! rows {
    ($($id:literal $name:ident ($($ask:ident),*) -> ($($give:ident),*) $(later ($($late:ident),*))?;)*) => {
        [$(MessageRow {
            id: $id,
            name: stringify!($name),
            asks: &[$(Part::$ask),*],
            gives: &[$(Part::$give),*],
            later: &[$($(Part::$late),*)?],
        }),*]
    };
}

pub(crate) use rows;
