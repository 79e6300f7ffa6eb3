//! The library's numbers, for `include/scmi.h` to be held against.
ghost use Rattle.std.specs.Prelude.{◌≡◌};
ghost use Rattle.scmi_c.specs.Numbers.{numbers_of_library, version_of_library};

use crate::code::{
    ASKED, DONE, EFFECT, IN_USE, LINE, MEMORY, NO_AGENT, NO_FRAME, NO_HISTORY, NO_PLATFORM,
    NO_RATE, NO_RESOURCE, NO_STATE, NOT_FREE, NOTHING, OTHER, RULE, TABLE, WRONG_SIZE,
    WRONG_STATUS,
};
use crate::effect::{ENABLED, RATE, STATE};
use scmi_codec::{AREA_BYTES, PAYLOAD_WORDS};

/// The version of the library: major, minor and patch, a byte each.
const VERSION: u32 = 0x0001_0000;

/// The numbers that C is given or has to know.
#[repr(C)]
#[derive(Drop)]
pub struct Numbers {
    pub area_bytes: u32,
    pub payload_words: u32,
    pub done: u32,
    pub nothing: u32,
    pub memory: u32,
    pub no_agent: u32,
    pub not_free: u32,
    pub no_platform: u32,
    pub in_use: u32,
    pub no_history: u32,
    pub no_frame: u32,
    pub wrong_size: u32,
    pub no_resource: u32,
    pub asked: u32,
    pub effect: u32,
    pub table: u32,
    pub wrong_status: u32,
    pub rule: u32,
    pub no_state: u32,
    pub no_rate: u32,
    pub other: u32,
    pub line: u32,
    pub effect_state: u32,
    pub effect_rate: u32,
    pub effect_enabled: u32,
}

/// Gives the library's numbers.
#[unsafe(no_mangle)]
pub extern "C" fn scmi_numbers(numbers: &mut Numbers)
    ensures { numbers.new ≡ numbers_of_library }
{
    *numbers = Numbers {
        area_bytes: AREA_BYTES as u32,
        payload_words: PAYLOAD_WORDS as u32,
        done: DONE,
        nothing: NOTHING,
        memory: MEMORY,
        no_agent: NO_AGENT,
        not_free: NOT_FREE,
        no_platform: NO_PLATFORM,
        in_use: IN_USE,
        no_history: NO_HISTORY,
        no_frame: NO_FRAME,
        wrong_size: WRONG_SIZE,
        no_resource: NO_RESOURCE,
        asked: ASKED,
        effect: EFFECT,
        table: TABLE,
        wrong_status: WRONG_STATUS,
        rule: RULE,
        no_state: NO_STATE,
        no_rate: NO_RATE,
        other: OTHER,
        line: LINE,
        effect_state: STATE,
        effect_rate: RATE,
        effect_enabled: ENABLED,
    };
}

/// The version of the library, major, minor and patch as 0x00MMmmpp.
#[unsafe(no_mangle)]
pub extern "C" fn scmi_version() -> u32
    ensures { result ≡ version_of_library }
{
    VERSION
}
