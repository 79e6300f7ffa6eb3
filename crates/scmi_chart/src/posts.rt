//! What steps post.
ghost use Rattle.std.specs.Prelude.{◌≡◌};
ghost use Rattle.scmi_codec.specs.Command.{protocol_header};
ghost use Rattle.scmi_chart.specs.Posted.{message_of, message_of_call};
ghost use Rattle.scmi_chart.specs.Service.{is_asynchronous, sets_later};

use scmi_codec::{ClockCommand, Command, Header, Message, PowerCommand, Status, payload_of};
use scmi_text::{AgentStep, Call, Step};

/// Whether a step posts an asynchronous set.
pub(crate) fn sets_later(step: &Step) -> bool
    ensures { result ≡ sets_later step.now }
{
    match message_of(step) {
        Some(message) => is_asynchronous(&Command::read(&message)),
        None => false,
    }
}

/// Whether a command is an asynchronous set.
fn is_asynchronous(command: &Result<Command, Status>) -> bool
    ensures { result ≡ is_asynchronous command.now }
{
    match command {
        Ok(Command::Power(PowerCommand::Set { flags, .. }))
        | Ok(Command::Clock(ClockCommand::SetRate { flags, .. })) => *flags % 2 == 1,
        _ => false,
    }
}

/// The message that a step posts, its token aside.
pub(crate) fn message_of(step: &Step) -> Option<Message>
    ensures { result ≡ message_of step.now }
{
    match step {
        Step::Do { call, .. }
        | Step::Fail { call, .. }
        | Step::Agent {
            step: AgentStep::Call(call),
            ..
        } => Some(call_message(call)),
        Step::Agent {
            step: AgentStep::Raw(message),
            ..
        } => Some(message.copy()),
        _ => None,
    }
}

/// The message of a call, with token 0.
fn call_message(call: &Call) -> Message
    ensures { result ≡ message_of_call call.now }
{
    Message {
        header: call_header(call.protocol, call.message),
        payload: payload_of(call.payload.as_slice()),
    }
}

/// The header of a command, with token 0.
fn call_header(protocol: u8, id: u8) -> Header
    ensures { result ≡ protocol_header protocol 0 id }
{
    Header::command(protocol, 0, id)
}
