//! The status of a response.
ghost use Rattle.std.specs.Prelude.{◌≡◌, ◌==◌};
ghost use Rattle.std.specs.List.{find};
ghost use Rattle.std.specs.Option.{option_map};
ghost use Rattle.scmi_codec.specs.Status.{status_word, status_name, status_of};

/// The status codes of DEN0056B, from SUCCESS (0) down to PROTOCOL_ERROR (-10).
#[derive(Clone, Copy, PartialEq, Eq, Debug)]
pub enum Status {
    Success,
    NotSupported,
    InvalidParameters,
    Denied,
    NotFound,
    OutOfRange,
    Busy,
    CommsError,
    GenericError,
    HardwareError,
    ProtocolError,
}

/// A status: its code as a payload word, a signed 32-bit number in two's complement, and its name in
/// DEN0056B. It is generic for the reason that a `MessageRow` is.
#[derive(Clone, Copy)]
pub struct StatusRow<N> {
    pub status: Status,
    pub word: u32,
    pub name: N,
}

macro_rules! rows {
    ($($word:literal $name:ident $status:ident;)*) => {
        [$(StatusRow {
            status: Status::$status,
            word: $word,
            name: stringify!($name),
        }),*]
    };
}

/// The statuses, in the order of the enum: the one place where a code and a name are written. Code
/// looks them up, and definitions cite them.
pub const STATUSES: [StatusRow<&'static str>; 11] = rows![
    0x0000_0000 SUCCESS Success;
    0xffff_ffff NOT_SUPPORTED NotSupported;
    0xffff_fffe INVALID_PARAMETERS InvalidParameters;
    0xffff_fffd DENIED Denied;
    0xffff_fffc NOT_FOUND NotFound;
    0xffff_fffb OUT_OF_RANGE OutOfRange;
    0xffff_fffa BUSY Busy;
    0xffff_fff9 COMMS_ERROR CommsError;
    0xffff_fff8 GENERIC_ERROR GenericError;
    0xffff_fff7 HARDWARE_ERROR HardwareError;
    0xffff_fff6 PROTOCOL_ERROR ProtocolError;
];

impl Status {
    /// The code as a payload word: a signed 32-bit number in two's complement.
    pub fn word(&self) -> u32
        ensures code { result ≡ status_word self.now }
        ensures back { status_of result ≡ Some self.now }
    {
        0u32.wrapping_sub(*self as u32)
    }

    /// The status of a payload word; `None` if the word is not a code.
    pub fn of_word(word: u32) -> Option<Status>
        ensures { result ≡ status_of word }
    {
        status_in(&STATUSES, word)
    }

    /// The name in DEN0056B.
    pub fn name(&self) -> &'static str
        ensures { result.now ≡ status_name self.now }
    {
        STATUSES[*self as usize].name
    }
}

/// The status of the first row of a word.
fn status_in(mut rows: &[StatusRow<&'static str>], word: u32) -> Option<Status>
    ensures { result
        ≡ option_map (λ row. row.status) (find (λ row. row.word == word) rows.entry.now) }
{
    while let [row, rest @ ..] = rows {
        if row.word == word {
            return Some(row.status);
        }
        rows = rest;
    }
    None
}
