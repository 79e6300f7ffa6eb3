//! Flags by their names.
ghost use Rattle.std.specs.Prelude.{◌≡◌, map};
ghost use Rattle.scmi_live.specs.Flags.{flags_in, flags_of, said};

use crate::letters::is_word;
use scmi_codec::Part;

/// A name of flags, or several with `+` between them, and the word that they encode.
///
/// It is generic because a constant has a name in definitions only if its struct holds no reference
/// of its own.
#[derive(Clone, Copy)]
pub struct FlagsRow<N> {
    pub name: N,
    pub word: u32,
}

/// A row of the tables.
pub type HeldFlags = FlagsRow<&'static [u8]>;

macro_rules! rows {
    ($($name:literal $word:literal;)*) => {
        [$(FlagsRow { name: $name, word: $word }),*]
    };
}

/// Flags of a permission.
pub(crate) const PERMIT_FLAGS: [HeldFlags; 2] = rows![
    b"allow" 1;
    b"deny" 0;
];

/// Flags of a reset.
pub(crate) const RESET_FLAGS: [HeldFlags; 1] = rows![
    b"permissions" 1;
];

/// Flags of a power domain's set.
pub(crate) const POWER_FLAGS: [HeldFlags; 2] = rows![
    b"sync" 0;
    b"async" 1;
];

/// Flags of a clock's rate set. Only an asynchronous set has a delayed response that can be left
/// out.
pub(crate) const RATE_FLAGS: [HeldFlags; 9] = rows![
    b"sync" 0;
    b"async" 1;
    b"round-up" 4;
    b"round-nearest" 8;
    b"async+round-up" 5;
    b"async+round-nearest" 9;
    b"async+no-delayed-response" 3;
    b"async+no-delayed-response+round-up" 7;
    b"async+no-delayed-response+round-nearest" 11;
];

/// The names of flags that a message may have in the place of this part.
pub fn flags_of(part: Part) -> &'static [HeldFlags]
    ensures { map said result.now ≡ flags_of part }
{
    match part {
        Part::PermitFlags => &PERMIT_FLAGS,
        Part::ResetFlags => &RESET_FLAGS,
        Part::PowerFlags => &POWER_FLAGS,
        Part::RateFlags => &RATE_FLAGS,
        _ => &[],
    }
}

/// The word of the first row that has this name, in letters of either case.
pub(crate) fn flags_in(mut rows: &[HeldFlags], item: &[u8]) -> Option<u32>
    ensures { result ≡ flags_in item.now (map said rows.entry.now) }
{
    while let [row, rest @ ..] = rows {
        if is_word(item, row.name) {
            return Some(row.word);
        }
        rows = rest;
    }
    None
}
