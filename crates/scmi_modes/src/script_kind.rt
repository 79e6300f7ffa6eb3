//! The kinds of scripts on one thread.

/// Which steps a script on one thread may have.
#[derive(Clone, Copy, Debug, PartialEq, Eq)]
pub enum ScriptKind {
    /// Those without hardware and restarts.
    Plain,
    /// Those beside hardware that refuses, and restarts, too. Its board may have lines `channel`.
    Hardware,
}
