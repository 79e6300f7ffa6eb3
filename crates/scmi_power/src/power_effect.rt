//! What a command of the power domain protocol set.

/// The domain and state that a command set now, even to an equal state, and whether the state
/// before differs; and the domain and state that it accepted for later. A command that is refused
/// has neither.
#[derive(Clone, Copy)]
pub struct PowerEffect {
    pub changed: Option<(u32, u32)>,
    pub differs: bool,
    pub later: Option<(u32, u32)>,
}

/// A command set nothing.
pub(crate) const NOTHING: PowerEffect = PowerEffect {
    changed: None,
    differs: false,
    later: None,
};
