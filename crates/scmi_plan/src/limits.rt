//! The limits of a board.

/// The most agents of a board (own). They are numbered from 1.
pub const AGENTS: usize = 8;

/// The most power domains of a board (own).
pub const DOMAINS: usize = 32;

/// The most clocks of a board (own).
pub const CLOCKS: usize = 32;

/// The most devices of a board (own).
pub const DEVICES: usize = 32;

/// The most protocols of a board besides the base protocol (own).
pub const PROTOCOLS: usize = 16;

/// The most rates of a list (own).
pub const RATES: usize = 64;

/// The most sets that are pending in all, of clocks and of domains (own).
pub const PENDING_SETS: usize = 8;
