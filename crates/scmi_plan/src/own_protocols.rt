//! Which of the library's protocols a board has.
ghost use Rattle.std.specs.Prelude.{◌≡◌, ◌==◌};
ghost use Rattle.std.specs.List.{list_any};

use scmi_codec::{CLOCK_PROTOCOL, POWER_PROTOCOL};

/// Whether a board has power domains and clocks. Each command asks, so that it is kept beside the
/// ids.
#[derive(Debug, Drop)]
pub(crate) struct OwnProtocols {
    pub power: bool,
    pub clocks: bool,
}

impl OwnProtocols {
    /// Of a board whose protocols have these ids.
    pub(crate) fn of(ids: &[u8]) -> OwnProtocols
        ensures power { result.power ≡ list_any (λ one. one == 0x11) ids.now }
        ensures clocks { result.clocks ≡ list_any (λ one. one == 0x14) ids.now }
    {
        OwnProtocols {
            power: lists(ids, POWER_PROTOCOL),
            clocks: lists(ids, CLOCK_PROTOCOL),
        }
    }
}

/// Whether a protocol is among these.
#[inline(always)]
pub(crate) fn lists(ids: &[u8], protocol: u8) -> bool
    ensures { result ≡ list_any (λ one. one == protocol) ids.now }
{
    ids.iter().any(|id| *id == protocol)
}
