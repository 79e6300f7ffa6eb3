//! The surface of `scmi_codec`.
ghost use Rattle.std.specs.Prelude.{◌≡◌, true};

use arrayvec::ArrayVec;
use scmi_codec::{
    Answer, AreaError, BaseCommand, ClockCommand, Command, Frame, Header, Message, Name, Payload,
    PowerCommand, Status, name_words, rate_of, rate_words, read_area, write_answer,
};

/// A message by all its fields, there and back.
fn rebuilt(message: Message) -> Message {
    let Message { header, payload } = message;
    let Header {
        reserved,
        token,
        protocol,
        kind,
        id,
    } = header;
    let payload: ArrayVec<u32, 64> = payload;
    let payload: Payload = payload;
    Message {
        header: Header {
            reserved,
            token,
            protocol,
            kind,
            id,
        },
        payload,
    }
}

fn name_the_calls() {
    let _: fn(u32) -> Header = Header::unpack;
    let _: fn(&Header) -> u32 = Header::pack;
    let _: fn(&Status) -> u32 = Status::word;
    let _: fn(u32) -> Option<Status> = Status::of_word;
    let _: fn(&[u8]) -> Result<Option<Frame>, AreaError> = read_area;
    let _: fn(&mut [u8], &Answer) -> Result<(), AreaError> = write_answer;
    let _: fn(&Message) -> Result<Command, Status> = Command::read;
    let _: fn(&Command, u16) -> Message = Command::pack;
    let _: fn(&str) -> Option<Name> = Name::new;
    let _: fn(&str) -> Option<Name> = Name::loose;
    let _: fn(&Name) -> [u32; 4] = name_words;
    let _: fn(u64) -> [u32; 2] = rate_words;
    let _: fn(u32, u32) -> u64 = rate_of;
}

/// A frame, an answer and a status are one of these, and nothing else.
fn name_the_variants(frame: &Frame, answer: &Answer, status: Status) -> [u32; 3] {
    let frame = match frame {
        Frame::Good(_message) => 0,
        Frame::Malformed { length, header } => length ^ header,
    };
    let answer = match answer {
        Answer::Reply(_message) => 1,
        Answer::Released => 2,
        Answer::ChannelError => 3,
    };
    let status = match status {
        Status::Success => 0,
        Status::NotSupported => 1,
        Status::InvalidParameters => 2,
        Status::Denied => 3,
        Status::NotFound => 4,
        Status::OutOfRange => 5,
        Status::Busy => 6,
        Status::CommsError => 7,
        Status::GenericError => 8,
        Status::HardwareError => 9,
        Status::ProtocolError => 10,
    };
    [frame, answer, status]
}

/// The error has its number.
fn is_numbered(error: AreaError) -> bool
    ensures { result ≡ true }
{
    let AreaError::WrongSize = error;
    error as u8 == 1
}

/// A command is one of these, with a word for each field and two for a rate.
fn words_of(command: Command) -> [u32; 4] {
    match command {
        Command::Base(command) => words_of_base(command),
        Command::Power(command) => words_of_power(command),
        Command::Clock(command) => words_of_clock(command),
    }
}

fn words_of_base(command: BaseCommand) -> [u32; 4] {
    match command {
        BaseCommand::Version
        | BaseCommand::Attributes
        | BaseCommand::Vendor
        | BaseCommand::SubVendor
        | BaseCommand::Implementation => [0; 4],
        BaseCommand::MessageAttributes { message } => [message, 0, 0, 0],
        BaseCommand::Protocols { skip } => [skip, 0, 0, 0],
        BaseCommand::Agent { agent } => [agent, 0, 0, 0],
        BaseCommand::Permit {
            agent,
            device,
            flags,
        } => [agent, device, flags, 0],
        BaseCommand::PermitProtocol {
            agent,
            device,
            protocol,
            flags,
        } => [agent, device, protocol, flags],
        BaseCommand::ResetAgent { agent, flags } => [agent, flags, 0, 0],
    }
}

fn words_of_power(command: PowerCommand) -> [u32; 4] {
    match command {
        PowerCommand::Version | PowerCommand::Attributes => [0; 4],
        PowerCommand::MessageAttributes { message } => [message, 0, 0, 0],
        PowerCommand::DomainAttributes { domain } => [domain, 0, 0, 0],
        PowerCommand::Set {
            flags,
            domain,
            state,
        } => [flags, domain, state, 0],
        PowerCommand::Get { domain } => [domain, 0, 0, 0],
        PowerCommand::Notify { domain, enable } => [domain, enable, 0, 0],
    }
}

fn words_of_clock(command: ClockCommand) -> [u32; 4] {
    match command {
        ClockCommand::Version | ClockCommand::Attributes => [0; 4],
        ClockCommand::MessageAttributes { message } => [message, 0, 0, 0],
        ClockCommand::ClockAttributes { clock } => [clock, 0, 0, 0],
        ClockCommand::Describe { clock, index } => [clock, index, 0, 0],
        ClockCommand::SetRate { flags, clock, rate } => {
            let [low, high]: [u32; 2] = rate_words(rate);
            [flags, clock, low, high]
        }
        ClockCommand::GetRate { clock } => [clock, 0, 0, 0],
        ClockCommand::Config { clock, attributes } => [clock, attributes, 0, 0],
    }
}
