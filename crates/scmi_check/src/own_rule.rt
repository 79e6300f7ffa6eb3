//! Where a record differs by a rule of the profile's own.
ghost use Rattle.std.specs.Prelude.{◌≡◌};
ghost use Rattle.std.specs.List.{find};
ghost use Rattle.scmi_check.specs.Own.{is_by, own_rule, rule_name};

use crate::own_test::is_by;
use scmi_codec::{Command, Status};

/// The names of the rules.
const UNKNOWN_ID: &str = "unknown-id";

const RESERVED_FLAGS: &str = "reserved-flags";

const SKIP: &str = "skip";

const INDEX: &str = "index";

const ERROR_FORM: &str = "error-form";

const VERSION: &str = "version";

const BOARD_NAME: &str = "board-name";

/// A rule of the profile's own (own), by which another platform may answer otherwise.
#[derive(Clone, Copy)]
pub enum OwnRule {
    /// An id that is not there is NOT_FOUND, and here it was INVALID_PARAMETERS.
    UnknownId,
    /// A reserved bit of flags that is set is INVALID_PARAMETERS.
    ReservedFlags,
    /// Skipping more protocols than there are is INVALID_PARAMETERS, and here none was listed.
    Skip,
    /// Describing rates past the end of the list is OUT_OF_RANGE, and here none was given.
    Index,
    /// An error response is the status word alone, and here words follow it.
    ErrorForm,
    /// The version of a protocol.
    Version,
    /// The names and the version that the board has.
    BoardName,
}

/// The rules, in the order in which they are tried.
pub const OWN_RULES: [OwnRule; 7] = [
    OwnRule::UnknownId,
    OwnRule::ReservedFlags,
    OwnRule::Skip,
    OwnRule::Index,
    OwnRule::ErrorForm,
    OwnRule::Version,
    OwnRule::BoardName,
];

impl OwnRule {
    /// The name in a line.
    pub fn name(&self) -> &'static str
        ensures { result.now ≡ rule_name self.now }
    {
        match self {
            OwnRule::UnknownId => UNKNOWN_ID,
            OwnRule::ReservedFlags => RESERVED_FLAGS,
            OwnRule::Skip => SKIP,
            OwnRule::Index => INDEX,
            OwnRule::ErrorForm => ERROR_FORM,
            OwnRule::Version => VERSION,
            OwnRule::BoardName => BOARD_NAME,
        }
    }
}

/// The first rule of the profile's own by which the payload of a reply differs from the one that is
/// due, if the command was read as this one.
#[tactic(auto, unfolding(crate::specs::Own::own_rule))]
pub(crate) fn own_rule(
    command: &Result<Command, Status>,
    due: &[u32],
    seen: &[u32],
) -> Option<OwnRule>
    ensures { result ≡ own_rule command.now due.now seen.now }
{
    own_rule_in(&OWN_RULES, command, due, seen)
}

fn own_rule_in(
    mut rules: &[OwnRule],
    command: &Result<Command, Status>,
    due: &[u32],
    seen: &[u32],
) -> Option<OwnRule>
    ensures { result ≡ find (λ rule. is_by rule command.now due.now seen.now) rules.entry.now }
{
    while let [rule, rest @ ..] = rules {
        if is_by(*rule, command, due, seen) {
            return Some(*rule);
        }
        rules = rest;
    }
    None
}
