//! A channel of one place between a caller and a callee, and its form over two ring buffers.
//!
//! The main type is the trait `Channel`: what each of its calls answers and leaves, in words that
//! every kind of channel meets. The main theorem is the contract of `gather`: once both endpoints
//! are at hand, what was taken is what was posted, at most its last left out, what was read is a
//! prefix of the answers given, and a close holds. `RingChannel` meets it over `rtrb`. Beside them
//! stand the values of what is asked over channels: an agent's `Script`, and what came of a step.
#![tactic(auto)]

mod callee_rings;
mod caller_rings;
mod channel;
mod close_error;
mod closing;
mod collected;
mod drop_first;
mod envelope;
mod flushed;
mod line;
mod link_error;
mod looked;
mod note;
mod order;
mod post_error;
mod ring_callee;
mod ring_caller;
mod ring_channel;
mod rings;
mod script;
mod served;
mod shut_error;

pub use channel::Channel;
pub use close_error::CloseError;
pub use closing::Closing;
pub use collected::Collected;
pub use flushed::Flushed;
pub use line::Line;
pub use link_error::LinkError;
pub use looked::Looked;
pub use order::Order;
pub use post_error::PostError;
pub use ring_callee::RingCallee;
pub use ring_caller::RingCaller;
pub use ring_channel::RingChannel;
pub use script::Script;
pub use served::Served;
pub use shut_error::ShutError;
