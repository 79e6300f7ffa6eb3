//! What calls gave, as numbers for C.
ghost use Rattle.std.specs.Prelude.{◌≡◌};
ghost use Rattle.scmi_c.specs.Refusal.{code_of};

use crate::refusal::Refusal;

/// The call did what it is for.
pub const DONE: u32 = 0;

/// No frame to answer, no command that was asked about, no set pending, or no message to post.
pub const NOTHING: u32 = 1;

/// Out of memory.
pub const MEMORY: u32 = 2;

/// The board lacks the agent.
pub const NO_AGENT: u32 = 3;

/// The channel is not free.
pub const NOT_FREE: u32 = 4;

/// The handle holds no platform.
pub const NO_PLATFORM: u32 = 5;

/// The handle holds a platform.
pub const IN_USE: u32 = 6;

/// The platform keeps no history.
pub const NO_HISTORY: u32 = 7;

/// The area holds no frame.
pub const NO_FRAME: u32 = 8;

/// The area has not the size of the agent's channel.
pub const WRONG_SIZE: u32 = 10;

/// The board lacks the domain or clock.
pub const NO_RESOURCE: u32 = 11;

/// A command was asked about, or is set aside, and is neither committed nor failed.
pub const ASKED: u32 = 12;

/// The hardware is to be changed, and then the command committed or failed.
pub const EFFECT: u32 = 13;

/// The board's tables are not well formed.
pub const TABLE: u32 = 14;

/// The number is that of no status which says why hardware refused.
pub const WRONG_STATUS: u32 = 15;

/// What a rule's number is added to.
pub const RULE: u32 = 16;

/// A domain's state is neither ON nor OFF.
pub const NO_STATE: u32 = 32;

/// The command that was asked about is to give no clock a rate.
pub const NO_RATE: u32 = 33;

/// The command is of a protocol that the firmware answers.
pub const OTHER: u32 = 34;

/// What a line's number is added to.
pub const LINE: u32 = 256;

/// The number of what a call gave.
pub fn code(given: Result<(), Refusal>) -> u32
    ensures { result ≡ code_of given }
{
    match given {
        Ok(()) => DONE,
        Err(Refusal::Nothing) => NOTHING,
        Err(Refusal::NoAgent) => NO_AGENT,
        Err(Refusal::NotFree) => NOT_FREE,
        Err(Refusal::NoFrame) => NO_FRAME,
        Err(Refusal::WrongSize) => WRONG_SIZE,
        Err(Refusal::WrongStatus) => WRONG_STATUS,
        Err(Refusal::NoResource) => NO_RESOURCE,
        Err(Refusal::NoState) => NO_STATE,
        Err(Refusal::NoRate) => NO_RATE,
        Err(Refusal::Other) => OTHER,
        Err(Refusal::Asked) => ASKED,
    }
}
