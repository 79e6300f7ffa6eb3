//! The platform controller of SCMI (DEN0056B, version 2.0): one history of events for all agents.
//!
//! The main type is `Core`. The main theorem is the contracts of its calls: each adds exactly one
//! event to a legal history or changes nothing, and `command`, `advance` and `front` answer what
//! the definitions of the history give at that place (specs/History.antt).
#![tactic(auto)]

mod answered;
mod change;
mod channel;
mod commit;
mod core_effects;
mod core_error;
mod core_hardware;
mod core_promote;
mod core_readers;
mod core_reports;
mod core_restart;
mod core_settle;
mod core_tell;
mod effects;
mod event;
mod events;
mod hardware;
mod legal_history;
mod listed;
mod mark;
mod message_ring;
mod notices;
mod outboxes;
mod p2a_message;
mod pending;
mod pending_set;
mod plain_boards;
mod plain_history;
mod platform;
mod platform_core;
mod platform_effects;
mod platform_hardware;
mod platform_promote;
mod platform_readers;
mod platform_reports;
mod platform_restart;
mod platform_settle;
mod platform_tell;
mod promote;
mod read_command;
mod restart;
mod said;
mod settle;
mod slot;
mod tables;
mod trace;
mod whole_channels;

pub use answered::Answered;
pub use core_error::CoreError;
pub use effects::may_change;
pub use event::Event;
pub use events::Events;
pub use hardware::{Hardware, NoHardware};
pub use legal_history::every_legal_history;
pub use listed::Listed;
pub use p2a_message::failed_response;
pub use pending_set::{PendingSet, Setting};
pub use plain_boards::every_plain_board;
pub use plain_history::every_plain_history;
pub use platform::Platform;
pub use platform_core::Core;
pub use said::{Said, Saying};
pub use scmi_codec::Fault;
pub use scmi_plan::{Effect, Report};
pub use slot::Slot;
pub use trace::Trace;
pub use whole_channels::every_whole_channel;
