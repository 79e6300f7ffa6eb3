//! An input that is read a line at a time.
ghost use Rattle.std.specs.Prelude.{◌≡◌, ◌<◌, ◌≤◌, ◌+◌, length, Some, IfOk, IsErrOf, OnOk, IfSome, vec_len};
ghost use Rattle.scmi_io.specs.Lines.{first_line, after_line, has_line_feed};
ghost use Rattle.scmi_io.specs.Reads.{StopsAtFailure};
ghost use Rattle.scmi_io.specs.declared.input.TheConstants.{INPUT_BYTES};

use crate::counted_read::CountedRead;
use crate::input::{INPUT_BYTES, Input};
use crate::input_error::InputError;

impl<R: CountedRead + Drop> Input<R> {
    /// The next line, without its line feed, in place of what `line` has; and whether a line feed
    /// ended it: if none did, it is the last. By at most `INPUT_BYTES + 1` reads. `Size` if the
    /// line is longer than `INPUT_BYTES`; `Read` at a read that fails, or if reads are interrupted
    /// so often that these are not enough; `Memory` when out of memory.
    pub fn read_line(&mut self, line: &mut Vec<u8>) -> Result<bool, InputError>
        ensures reads { self.new.reads ≤ self.old.reads + (INPUT_BYTES + 1) }
        ensures stops { StopsAtFailure result self.old.since_failure self.new.since_failure }
        ensures line { OnOk result
            (IfSome self.old.left (λ input. line.new.items ≡ first_line input)) }
        ensures rest { OnOk result
            (IfSome self.old.left (λ input. self.new.left ≡ Some (after_line input))) }
        ensures ended { IfOk result (λ ended.
            IfSome self.old.left (λ input. ended ≡ has_line_feed input)) }
        ensures small { OnOk result (vec_len line.new ≤ INPUT_BYTES) }
        ensures size { IsErrOf result InputError.Size →
            IfSome self.old.left (λ input. INPUT_BYTES < length (first_line input)) }
    {
        line.clear();
        let mut tries = INPUT_BYTES + 1;
        'pieces: for _ in 0..INPUT_BYTES + 1 {
            let whole = self.next_piece(line, &mut tries)?;
            if line.len() > INPUT_BYTES {
                return Err(InputError::Size);
            }
            if let Some(ended) = whole {
                return Ok(ended);
            }
        }
        Err(InputError::Size)
    }
}
