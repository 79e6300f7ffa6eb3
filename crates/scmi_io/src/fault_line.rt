//! The line of a fault.
ghost use Rattle.std.specs.Prelude.{◌≡◌, ◌≢◌, ◌⊎◌, IfSome};
ghost use Rattle.std.specs.Io.KnownBytes.{Appends};
ghost use Rattle.scmi_io.specs.FaultLine.{fault_line};
ghost use Rattle.scmi_io.specs.declared.fault_line.TheConstants.{FAILED_OUTPUT};

use crate::fault_words::FAULT;
use std::fmt::Display;
use std::io::Write;

/// The exit status if the output failed (own).
pub const FAILED_OUTPUT: u8 = 1;

/// Writes the line of a fault, and gives this exit status, or `FAILED_OUTPUT` if the line can't be
/// written.
#[tactic(auto, unfolding(crate::specs::FaultLine::fault_line))]
pub fn write_fault<W: Write, F: Display>(writer: &mut W, fault: &F, status: u8) -> u8
    ensures status { (result ≡ status) ⊎ (result ≡ FAILED_OUTPUT) }
    ensures fault { result ≢ FAILED_OUTPUT → (result ≡ status) × IfSome (F.output fault.now)
        (λ text. Appends (W.contents writer.old) (W.contents writer.new) (fault_line text)) }
{
    match writeln!(writer, "{FAULT}{fault}") {
        Ok(()) => status,
        Err(_) => FAILED_OUTPUT,
    }
}
