//! The words of a board's text.

/// The first word of a board's heading.
pub(crate) const BOARD: &[u8] = b"board";

/// The first words of the rows.
pub(crate) const AGENT: &[u8] = b"agent";

pub(crate) const DOMAIN: &[u8] = b"domain";

/// The first word of a clock's row.
pub const CLOCK: &[u8] = b"clock";

pub(crate) const DEVICE: &[u8] = b"device";

/// The first word of what an agent's channels are.
pub(crate) const CHANNEL: &[u8] = b"channel";

/// Written if the platform can't send to the agent.
pub(crate) const ONE_WAY: &[u8] = b"one-way";

/// Before how many of the pending sets may be the agent's.
pub(crate) const PENDING: &[u8] = b"pending";

/// The first word of what no agent may switch off.
pub(crate) const KEEP: &[u8] = b"keep";

/// The first word of what is denied to an agent.
pub(crate) const DENY: &[u8] = b"deny";

/// The first word of what has a number and is not there.
pub(crate) const ABSENT: &[u8] = b"absent";

/// The first word of a clock that takes each rate as it is asked for.
pub(crate) const FREE: &[u8] = b"free";

/// The first word of the protocols besides the base protocol.
pub(crate) const PROTOCOLS: &[u8] = b"protocols";

/// The line after the last row.
pub const END: &[u8] = b"end";

/// Whether a domain or a clock is on.
pub(crate) const ON: &[u8] = b"on";

pub(crate) const OFF: &[u8] = b"off";

/// What the rates of a clock are.
pub(crate) const LIST: &[u8] = b"list";

pub(crate) const STEPS: &[u8] = b"steps";

/// In place of kinds or numbers, if there are none.
pub(crate) const NONE: &[u8] = b"-";
