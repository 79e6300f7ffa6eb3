//! Boards as texts: lines, their items and numbers, and the board that they describe.
//!
//! The main types are `Lines`, what is left of an input, and `Items`, what is left of a line. The
//! main theorem is the contract of `read_board`: it gives the board that the lines encode, row by
//! row, or else the number of the first invalid line, unless memory is refused.
//! `read_board_with_lines` is the same of a text that may have lines behind the rows: what channels
//! the agents have, what no agent may switch off, what is denied to agents, what is not there, and
//! which clocks take each rate. `read_valid_board` is the same of one that has a board which keeps
//! every rule, and nothing after it.
#![tactic(auto)]

mod board;
mod board_error;
mod board_line;
mod board_lines;
mod board_with_lines;
mod channel_line;
mod clock_line;
mod deny_line;
mod device_line;
mod domain_line;
mod fields;
mod free_line;
mod items;
mod keep_line;
mod line_after;
mod line_error;
mod lines;
mod numbers;
mod places;
mod protocol_row;
mod protocols_line;
mod row;
mod text_error;
mod valid_board;
mod words;

pub use board::read_board;
pub use board_error::BoardError;
pub use board_line::BoardLine;
pub use board_lines::{apply_line, apply_lines};
pub use board_with_lines::{BoardWithLines, read_board_with_lines};
pub use channel_line::ChannelLine;
pub use deny_line::DenyLine;
pub use items::Items;
pub use line_after::LineAfter;
pub use line_error::LineError;
pub use lines::{Lines, TextLine, is_significant};
pub use numbers::{byte, number, word};
pub use protocol_row::{ids_of, row_of};
pub use text_error::TextError;
pub use valid_board::{ValidBoard, read_valid_board};
pub use words::{CLOCK, END};
