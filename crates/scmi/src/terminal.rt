//! The terminal at which the program runs, if it does.

use std::env::{self, VarError};
use std::io::IsTerminal;

/// What of the standard streams is a terminal.
#[derive(Clone, Copy)]
pub struct Terminal {
    /// A person types standard input.
    pub is_typed: bool,
    /// Standard output may have colours.
    pub is_colored: bool,
    /// A person sees standard error, and not standard output.
    pub is_watched: bool,
}

impl Terminal {
    /// What of the standard streams is a terminal. Standard output may have colours if it is one, the
    /// variable NO_COLOR is empty or missing, and TERM is not `dumb`.
    pub fn of(rt: &HostRuntime) -> Terminal {
        Terminal {
            is_typed: rt.stdin().is_terminal(),
            is_colored: rt.stdout().is_terminal() && !refuses_colors(rt) && !is_dumb(rt),
            is_watched: rt.stderr().is_terminal() && !rt.stdout().is_terminal(),
        }
    }
}

/// Whether the environment has the variable that refuses colours.
fn refuses_colors(rt: &HostRuntime) -> bool {
    match env::var(rt, "NO_COLOR") {
        Ok(value) => !value.is_empty(),
        Err(error) => !matches!(error, VarError::NotPresent),
    }
}

/// Whether the terminal is one without colours, by its name.
fn is_dumb(rt: &HostRuntime) -> bool {
    match env::var(rt, "TERM") {
        Ok(name) => name.as_str() == "dumb",
        Err(_) => false,
    }
}
