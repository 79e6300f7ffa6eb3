//! The rates that a clock supports.

/// The rates in Hz that a clock supports: those of a list, or `low`, `low + step` and so on up to
/// `high`.
#[derive(Clone, PartialEq, Eq, Debug, Drop)]
pub enum Rates {
    List(Vec<u64>),
    Steps { low: u64, high: u64, step: u64 },
}
