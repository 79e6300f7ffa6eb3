//! Hardware that takes a register write for each change.
ghost use Rattle.std.specs.Prelude.{true, ⊤};

use scmi_codec::Fault;
use scmi_core::{Effect, Hardware};

/// Registers of 32 domains and 32 clocks, as a driver writes them. Of another it refuses the change.
#[derive(Drop)]
pub struct Registers {
    states: [u32; 32],
    rates: [u64; 32],
    enabled: [bool; 32],
}

impl Registers {
    /// All zero.
    pub fn new() -> Registers {
        Registers {
            states: [0; 32],
            rates: [0; 32],
            enabled: [false; 32],
        }
    }
}

impl Hardware for Registers {
    ghost REFUSES = { true };

    ghost asked = { λ hardware asks. ⊤ };

    fn apply(&mut self, effect: Effect) -> Result<(), Fault> {
        match effect {
            Effect::State { domain, state } => write(&mut self.states, domain, state),
            Effect::Rate { clock, rate } => write(&mut self.rates, clock, rate),
            Effect::Enabled { clock, enabled } => write(&mut self.enabled, clock, enabled),
        }
    }
}

/// Writes the register of this number, if there is one.
fn write<T: Copy>(registers: &mut [T], number: u32, value: T) -> Result<(), Fault> {
    *registers
        .get_mut(number as usize)
        .ok_or(Fault::HardwareError)? = value;
    Ok(())
}
