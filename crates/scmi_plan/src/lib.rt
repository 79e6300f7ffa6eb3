//! The board that a platform controller serves: agents, power domains, clocks and devices.
//!
//! The main type is `Plan`, a board that keeps the limits and rules of the profile. The main
//! theorem is the contract of `Plan::check`: it returns the plan of a valid board, and for another
//! board the first rule that it breaks; out of memory comes last.
#![tactic(auto)]

mod agent_channel;
mod board_rows;
mod build;
mod channel_error;
mod clock;
mod denied;
mod device;
mod domain;
mod effect;
mod fault;
mod holders;
mod limits;
mod load;
mod mask;
mod not_on_board;
mod own_protocols;
mod plan;
mod plan_error;
mod plan_settings;
mod protocols_error;
mod rates;
mod raw_plan;
mod report;
mod resource;
mod scope;

pub use agent_channel::{AgentChannel, LEAST_CHANNEL_WORDS, WHOLE_CHANNEL};
pub use board_rows::BoardRows;
pub use channel_error::ChannelError;
pub use clock::Clock;
pub use denied::Denied;
pub use device::Device;
pub use domain::Domain;
pub use effect::Effect;
pub use fault::are_valid_counts;
pub use limits::{AGENTS, CLOCKS, DEVICES, DOMAINS, PENDING_SETS, PROTOCOLS, RATES};
pub use load::Load;
pub use mask::{MASK_BITS, with_bit, without_bit};
pub use not_on_board::NotOnBoard;
pub use plan::Plan;
pub use plan_error::PlanError;
pub use protocols_error::{ProtocolsError, check_protocols};
pub use rates::Rates;
pub use raw_plan::{RawClock, RawDomain, RawPlan};
pub use report::Report;
pub use resource::Resource;
pub use scope::Scope;
