//! What an agent's thread passes before each line of its script.
use std::sync::Wait;

/// What an agent's thread passes before each line of its script. A test can hold an agent there.
pub trait Gate: Sync {
    ghost use Rattle.std.specs.Prelude.{ℕ, ⊤};

    // That it was asked before this line of this agent. Of a gate of which nothing else is known only a
    // call of `before` shows it. A gate that keeps no record of it leaves this out.
    ghost asked: { Self → ℕ → ℕ → Type 0 } = { λ gate agent line. ⊤ };

    /// Called by the agent's thread before this line of its script; agents and lines are counted
    /// from 1, and the last line that has a number of its own is 4,294,967,295.
    fn before<R: Wait>(&self, rt: &R, agent: u32, line: u32)
        ensures { asked self.now agent line };
}

/// The gate that lets each agent pass at once.
#[derive(Clone, Copy)]
pub struct OpenGate;

impl Gate for OpenGate {
    fn before<R: Wait>(&self, _rt: &R, _agent: u32, _line: u32) {}
}
