//! The lines of an input.
ghost use Rattle.std.specs.Prelude.{◌≡◌};
ghost use Rattle.std.specs.Option.{option_copied};
ghost use Rattle.scmi_modes.specs.Lines.{only, significant_lines};

use scmi_board::is_significant;

/// The line of an input that has exactly one that counts.
pub fn only_line(input: &[u8]) -> Option<&[u8]>
    ensures { option_copied result ≡ only (significant_lines input.now) }
{
    let mut found = None;
    for line in input.split(|b| *b == b'\n') {
        if is_significant(line) {
            if found.is_some() {
                return None;
            }
            found = Some(line);
        }
    }
    found
}
