//! The tests of the rules that are the profile's own.
ghost use Rattle.std.specs.Prelude.{◌≡◌};
ghost use Rattle.scmi_check.specs.Own.{asks_board, asks_protocols, asks_version, begins_with, describes_rates, has_reserved_flags, is_by, is_longer_error, is_nothing_given};

use crate::own_rule::OwnRule;
use scmi_codec::{BaseCommand, ClockCommand, Command, PowerCommand, Status};

/// Whether a reply differs by this rule from the one that is due.
pub(crate) fn is_by(
    rule: OwnRule,
    command: &Result<Command, Status>,
    due: &[u32],
    seen: &[u32],
) -> bool
    ensures { result ≡ is_by rule command.now due.now seen.now }
{
    match rule {
        OwnRule::UnknownId => {
            begins_with(due, Status::NotFound) && begins_with(seen, Status::InvalidParameters)
        }
        OwnRule::ReservedFlags => {
            has_reserved_flags(command) && begins_with(due, Status::InvalidParameters)
        }
        OwnRule::Skip => {
            asks_protocols(command)
                && begins_with(due, Status::InvalidParameters)
                && is_nothing_given(seen)
        }
        OwnRule::Index => {
            describes_rates(command)
                && begins_with(due, Status::OutOfRange)
                && is_nothing_given(seen)
        }
        OwnRule::ErrorForm => is_longer_error(due, seen),
        OwnRule::Version => {
            asks_version(command)
                && begins_with(due, Status::Success)
                && begins_with(seen, Status::Success)
        }
        OwnRule::BoardName => {
            asks_board(command)
                && begins_with(due, Status::Success)
                && begins_with(seen, Status::Success)
        }
    }
}

/// Whether a payload begins with a status.
pub(crate) fn begins_with(payload: &[u32], status: Status) -> bool
    ensures { result ≡ begins_with payload.now status }
{
    match payload {
        [word, ..] => *word == status.word(),
        [] => false,
    }
}

/// Whether a payload is SUCCESS and one word more: a number of protocols, or of rates, and none of them.
fn is_nothing_given(payload: &[u32]) -> bool
    ensures { result ≡ is_nothing_given payload.now }
{
    match payload {
        [word, _number] => *word == Status::Success.word(),
        _ => false,
    }
}

/// Whether an error is due, and the same is seen with words after it.
fn is_longer_error(due: &[u32], seen: &[u32]) -> bool
    ensures { result ≡ is_longer_error due.now seen.now }
{
    match (due, seen) {
        ([due], [first, _, ..]) => *due == *first && *due != Status::Success.word(),
        _ => false,
    }
}

/// Whether a command has a reserved bit of its flags set.
pub(crate) fn has_reserved_flags(command: &Result<Command, Status>) -> bool
    ensures { result ≡ has_reserved_flags command.now }
{
    match command {
        Ok(Command::Base(BaseCommand::Permit { flags, .. })) => *flags > 1,
        Ok(Command::Base(BaseCommand::PermitProtocol { flags, .. })) => *flags > 1,
        Ok(Command::Base(BaseCommand::ResetAgent { flags, .. })) => *flags > 1,
        Ok(Command::Power(PowerCommand::Set { flags, .. })) => *flags > 1,
        Ok(Command::Clock(ClockCommand::SetRate { flags, .. })) => *flags > 15,
        Ok(Command::Clock(ClockCommand::Config { attributes, .. })) => *attributes > 1,
        _ => false,
    }
}

fn asks_protocols(command: &Result<Command, Status>) -> bool
    ensures { result ≡ asks_protocols command.now }
{
    matches!(command, Ok(Command::Base(BaseCommand::Protocols { .. })))
}

fn describes_rates(command: &Result<Command, Status>) -> bool
    ensures { result ≡ describes_rates command.now }
{
    matches!(command, Ok(Command::Clock(ClockCommand::Describe { .. })))
}

fn asks_version(command: &Result<Command, Status>) -> bool
    ensures { result ≡ asks_version command.now }
{
    match command {
        Ok(Command::Base(BaseCommand::Version)) => true,
        Ok(Command::Power(PowerCommand::Version)) => true,
        Ok(Command::Clock(ClockCommand::Version)) => true,
        _ => false,
    }
}

fn asks_board(command: &Result<Command, Status>) -> bool
    ensures { result ≡ asks_board command.now }
{
    match command {
        Ok(Command::Base(BaseCommand::Vendor)) => true,
        Ok(Command::Base(BaseCommand::SubVendor)) => true,
        Ok(Command::Base(BaseCommand::Implementation)) => true,
        _ => false,
    }
}
