//! A judge of another platform of SCMI, by a record of what went over its channels.
//!
//! The main type is `Judge`, which keeps all platforms that may be behind the entries so far. The
//! main theorem is the contract of `Judge::judge`: as long as no entry differed, the verdict on the
//! next one is `Same` if and only if a legal history of the board is behind all entries so far with
//! it (specs/Behind.antt).
#![tactic(auto)]

mod commands;
mod due;
mod entry;
mod exact_sets;
mod going_on;
mod guess;
mod guesses;
mod judge;
mod judging;
mod kept;
mod looking_back;
mod outstanding;
mod place;
mod records;
mod same;
mod shown;
mod stop;
mod unseen;
mod verdict;
mod window;

pub use due::in_place;
pub use entry::Entry;
pub use exact_sets::every_exact_set;
pub use going_on::GOING_ON;
pub use judge::Judge;
pub use outstanding::OUTSTANDING;
pub use records::every_record;
pub use shown::{has_succeeded, sets_value};
pub use unseen::{NOTHING_UNSEEN, Refusals, Unseen};
pub use verdict::Verdict;
