//! What every program reads and writes: an input by lines, texts with holes, and the line of a fault.
//!
//! The main type is `Input`, a reader whose first line is read before the rest. The main theorem is
//! the contract of `Input::read_first_line` with that of `read_rest`: the line and all that comes
//! after its line feed are those of the reader, by at most `INPUT_BYTES + 1` reads each, and a read
//! that fails is the last. What `write_filled` and `write_fault` write is their text to its last byte.
#![tactic(auto)]

mod ahead;
mod counted_read;
mod counted_reader;
mod fault_line;
mod fault_words;
mod filled;
mod input;
mod input_error;
mod line;
mod piece;
mod read_error;
mod rest;
mod source;

pub use counted_read::CountedRead;
pub use counted_reader::CountedReader;
pub use fault_line::{FAILED_OUTPUT, write_fault};
pub use fault_words::{
    AREA, BOARD, FAULT, LIMIT, MEMORY, MODE, PLAN, READ, RECORD, SCRIPT, SIZE, WRITE,
};
pub use filled::{HOLE, write_filled};
pub use input::{INPUT_BYTES, Input, KEPT_BYTES};
pub use input_error::InputError;
pub use piece::Piece;
pub use read_error::ReadError;
pub use rest::read_rest;
