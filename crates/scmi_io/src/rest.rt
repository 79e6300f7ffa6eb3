//! All that a reader has left.
ghost use Rattle.std.specs.Prelude.{◌≡◌, ◌<◌, ◌≤◌, ◌+◌, length, IfOk, IsErrOf, IfSome, vec_len};
ghost use Rattle.scmi_io.specs.Reads.{StopsAtFailure};
ghost use Rattle.scmi_io.specs.declared.input.TheConstants.{INPUT_BYTES};

use crate::counted_read::CountedRead;
use crate::input::INPUT_BYTES;
use crate::input_error::InputError;
use crate::read_error::ReadError;
use std::alloc::Global;

/// The most bytes that are read at once.
const PIECE_BYTES: usize = 4096;

/// All that is left to read, by at most `INPUT_BYTES + 1` reads. `Size` if it is longer than
/// `INPUT_BYTES`; `Read` at a read that fails, or if reads are interrupted so often that these are
/// not enough; `Memory` when out of memory.
pub fn read_rest<R: CountedRead>(alloc: Global, reader: &mut R) -> Result<Vec<u8>, InputError>
    ensures reads { R.reads reader.new ≤ R.reads reader.old + (INPUT_BYTES + 1) }
    ensures stops { StopsAtFailure result (R.since_failure reader.old)
        (R.since_failure reader.new) }
    ensures whole { IfOk result (λ all.
        IfSome (R.remaining reader.old) (λ input. all.items ≡ input)) }
    ensures small { IfOk result (λ all. vec_len all ≤ INPUT_BYTES) }
    ensures size { IsErrOf result InputError.Size →
        IfSome (R.remaining reader.old) (λ input. INPUT_BYTES < length input) }
{
    let mut all = Vec::new(alloc);
    let mut piece = [0u8; PIECE_BYTES];
    'reads: for _ in 0..INPUT_BYTES + 1 {
        let count = match reader.read(&mut piece) {
            Ok(count) => count,
            Err(ReadError::Interrupted) => continue,
            Err(ReadError::Failed) => return Err(InputError::Read),
        };
        if count == 0 {
            return Ok(all);
        }
        if all.len() + count > INPUT_BYTES {
            return Err(InputError::Size);
        }
        if all.extend_from_slice(&piece[..count]).is_err() {
            return Err(InputError::Memory);
        }
    }
    Err(InputError::Read)
}
