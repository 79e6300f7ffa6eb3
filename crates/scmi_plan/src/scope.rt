//! What a permission is for.

/// A device as a whole, or one protocol on it (own).
#[derive(Clone, Copy, PartialEq, Eq, Debug)]
pub enum Scope {
    Device,
    Power,
    Clock,
}
