//! The first lines of inputs, each of which names a mode.

/// The line of the mode `once`.
pub const ONCE: &str = "once";

/// The line of the mode `steps` over rings.
pub const STEPS_RINGS: &str = "steps rings";

/// The line of the mode `steps` over words.
pub const STEPS_WORDS: &str = "steps words";

/// The line of the mode `threads` over rings.
pub const THREADS_RINGS: &str = "threads rings";

/// The line of the mode `threads` over words.
pub const THREADS_WORDS: &str = "threads words";

/// The line of the mode `hardware` over rings.
pub const HARDWARE_RINGS: &str = "hardware rings";

/// The line of the mode `hardware` over words.
pub const HARDWARE_WORDS: &str = "hardware words";
