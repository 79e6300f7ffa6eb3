//! What an area of shared memory is, in words, and dumps of areas: dumps in, what is found in them
//! out (DEN0056B).
//!
//! The main types are `Description`, what an area is, with its message, fields and status by their
//! names, and `Finding`, what is found in a dump and where; `Layout` says which bytes of a dump are
//! areas. The main theorem is the contract of `decode_input`: a sink (`Findings`) is given what is
//! found in the dumps of the input, in order and nothing else, and what is found in a dump is that of
//! its bytes, in whatever form they are (`forms`). A line that reports a message, of Linux's ftrace or
//! of a run of a script, has the bytes of that message's area. By the contracts of `describe` (of
//! `describe_channel` for an area of any size that a channel has) and of `are_described_alike` a
//! description is the codec's frame and command, an area that encodes an answer is described as that
//! answer, and nothing of the frame and of the channel's state is lost.
//!
//! `decode_bytes` finds the same in an input of bytes. `run_decode` and `run_bytes` write the findings
//! and give a status; `write_description` writes a description. Stored runs compare what is written.
//! `Readings` is notified of how each area was read. `read_traced` reads the message of one line of
//! ftrace.
#![tactic(auto)]

mod advice;
mod alike;
mod answering;
mod bytes;
mod cell;
mod channel;
mod commands;
mod decode;
mod decode_error;
mod describing;
mod description;
mod dump;
mod dump_end;
mod event;
mod field;
mod field_parts;
mod field_text;
mod finding;
mod findings;
mod first_column;
mod first_line;
mod flags;
mod form;
mod group_order;
mod heading;
mod held_row;
mod layout;
mod line;
mod lines;
mod lists;
mod message_area;
mod message_line;
mod message_words;
mod name_text;
mod names;
mod no_bytes;
mod number;
mod open_dump;
mod order;
mod parts;
mod parts_found;
mod prefix;
mod printed;
mod reading;
mod readings;
mod reply;
mod row;
mod scan;
mod step;
mod swapped;
mod text;
mod traced;
mod wide_row;

pub use alike::are_described_alike;
pub use answering::{describe_answered, describe_written};
pub use bytes::{decode_bytes, run_bytes};
pub use channel::describe_channel;
pub use commands::command_fields;
pub use decode::{decode_input, run_counted, run_decode};
pub use decode_error::DecodeError;
pub use describing::{describe, describe_message};
pub use description::Description;
pub use event::EventKind;
pub use field::{FIELDS, Field, Fields};
pub use finding::{Finding, Found};
pub use findings::Findings;
pub use form::Form;
pub use layout::{Layout, LayoutError, Pieces};
pub use names::{notification_name, protocol_name, status_name};
pub use no_bytes::NoBytes;
pub use reading::{READINGS, Reading, ReadingRow};
pub use readings::Readings;
pub use reply::{delayed_fields, notification_fields, reply_fields, response_status};
pub use row::{ROW_BYTES, ROW_LINE_BYTES};
pub use text::{write_area, write_description};
pub use traced::{Traced, read_traced};
