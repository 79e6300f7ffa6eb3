//! The places of names in lists.
ghost use Rattle.std.specs.Prelude.{◌≡◌, ℕ, List, map, string_bytes};
ghost use Rattle.scmi_live.specs.Names.{number_from};

use scmi_plan::{RawClock, RawDomain};

/// What has a name on a board.
pub(crate) trait Named {
    ghost name: { Self → List ℕ };

    /// Its name.
    fn name(&self) -> &[u8]
        ensures { result.now ≡ name self.now };
}

impl Named for String {
    ghost name = { string_bytes };

    fn name(&self) -> &[u8] {
        self.as_bytes()
    }
}

impl Named for RawDomain {
    ghost name = { λ domain. string_bytes domain.name };

    fn name(&self) -> &[u8] {
        self.name.as_bytes()
    }
}

impl Named for RawClock {
    ghost name = { λ clock. string_bytes clock.name };

    fn name(&self) -> &[u8] {
        self.name.as_bytes()
    }
}

/// The number of the first of these that has this name, if the first of all has this number; `None`
/// if none has it.
pub(crate) fn number_from<N: Named>(mut first: u32, mut all: &[N], text: &[u8]) -> Option<u32>
    ensures { result ≡ number_from first text.now (map N.name all.entry.now) }
{
    while let [one, rest @ ..] = all {
        if one.name() == text {
            return Some(first);
        }
        first = first.checked_add(1)?;
        all = rest;
    }
    None
}
