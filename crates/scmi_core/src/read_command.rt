//! What a message asks of a board.
ghost use Rattle.std.specs.Prelude.{◌≡◌};
ghost use Rattle.scmi_core.specs.ReadCommand.{command_on, lacks_protocol};

use scmi_codec::{CLOCK_PROTOCOL, Command, Header, Message, POWER_PROTOCOL, Status};
use scmi_plan::Plan;

/// As `Command::read`, but NOT_SUPPORTED for a command of a protocol that the board has not (own).
#[inline(always)]
pub(crate) fn read_command(plan: &Plan, message: &Message) -> Result<Command, Status>
    ensures { result ≡ command_on plan.now message.now }
{
    if lacks_protocol(plan, message.header) {
        return Err(Status::NotSupported);
    }
    Command::read(message)
}

#[inline(always)]
fn lacks_protocol(plan: &Plan, header: Header) -> bool
    ensures { result ≡ lacks_protocol plan.now header }
{
    header.kind() == 0
        && match header.protocol() {
            POWER_PROTOCOL => !plan.has_power(),
            CLOCK_PROTOCOL => !plan.has_clocks(),
            _ => false,
        }
}
