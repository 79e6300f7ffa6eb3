//! A channel of atomic words in shared memory: a mailbox that both of its endpoints use at once.
//!
//! The main type is `WordChannel`, a `scmi_link::Channel` over one table of words, each of which is
//! stored, loaded or exchanged alone. The main theorem is the rule of the table (`Mailbox`), which
//! each of the fifteen kinds of step keeps: whole frames and whole answers pass under every
//! interleaving. At `gather` it gives the channel's contract, and what the bytes left encode.
#![tactic(auto)]

mod callee_steps;
mod caller_steps;
mod frames;
mod layout;
mod mailbox;
mod phase;
mod shared_table;
mod status_word;
mod view;
mod word_callee;
mod word_caller;
mod word_channel;
mod word_image;

pub use phase::Phase;
pub use view::{CalleeHalf, CalleeState, CallerHalf, CallerState};
pub use word_callee::WordCallee;
pub use word_caller::WordCaller;
pub use word_channel::WordChannel;
pub use word_image::WordImage;
