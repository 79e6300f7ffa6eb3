//! Commands of all protocols, and the messages that carry them.
ghost use Rattle.std.specs.Prelude.{◌≡◌, ◌<◌, IfOk};
ghost use Rattle.scmi_codec.specs.declared.header.TheConstants.{TOKENS};
ghost use Rattle.scmi_codec.specs.Command.{command_of, command_header, command_words, IsListed};

use crate::base_command::{BASE_PROTOCOL, BaseCommand};
use crate::clock_command::{CLOCK_PROTOCOL, ClockCommand};
use crate::header::Header;
use crate::message::Message;
use crate::power_command::{POWER_PROTOCOL, PowerCommand};
use crate::status::Status;

/// What a message of type 0 asks for.
#[derive(Clone, Copy, PartialEq, Eq, Debug)]
pub enum Command {
    Base(BaseCommand),
    Power(PowerCommand),
    Clock(ClockCommand),
}

impl Command {
    /// The command that a message carries, or the status of the first check that it fails (own
    /// order): PROTOCOL_ERROR for a type other than 0, NOT_SUPPORTED for an unknown protocol or
    /// message id, PROTOCOL_ERROR for another number of payload words than the command has.
    #[inline(always)]
    pub fn read(message: &Message) -> Result<Command, Status>
        ensures value { result ≡ command_of message.now }
        ensures payload { IfOk result (λ c. message.now.payload.items ≡ command_words c) }
    {
        if message.header.kind() != 0 {
            return Err(Status::ProtocolError);
        }
        let id = message.header.id();
        let words = message.payload.as_slice();
        match message.header.protocol() {
            BASE_PROTOCOL => Ok(Command::Base(BaseCommand::read(id, words)?)),
            POWER_PROTOCOL => Ok(Command::Power(PowerCommand::read(id, words)?)),
            CLOCK_PROTOCOL => Ok(Command::Clock(ClockCommand::read(id, words)?)),
            _ => Err(Status::NotSupported),
        }
    }

    /// The message of the command with this token, with reserved bits 0.
    #[tactic(auto, using(crate::proofs::MessageTables::is_listed))]
    pub fn pack(&self, token: u16) -> Message
        requires { token < TOKENS }
        ensures header { result.header ≡ command_header self.now token }
        ensures words { result.payload.items ≡ command_words self.now }
        ensures back { command_of result ≡ Ok self.now }
        ensures listed { IsListed self.now }
    {
        let (protocol, id, payload) = match self {
            Command::Base(command) => (BASE_PROTOCOL, command.id(), command.payload()),
            Command::Power(command) => (POWER_PROTOCOL, command.id(), command.payload()),
            Command::Clock(command) => (CLOCK_PROTOCOL, command.id(), command.payload()),
        };
        let header = Header::command(protocol, token, id);
        Message { header, payload }
    }
}
