//! What the program is asked for.

use scmi_decode::Layout;

/// What the program does, by the word that asks for it.
#[derive(Clone, Copy)]
pub enum Task {
    /// Runs a session.
    Run,
    /// Describes areas of shared memory.
    Decode,
    /// Draws a session.
    Chart,
    /// Answers the lines of a session one by one.
    Session,
    /// Checks a record of a platform.
    Check,
    /// Prints the tables of a board in C.
    Table,
    /// Shows how the program is used.
    Help,
    /// Shows which program this is.
    Version,
}

/// What the program is asked for, but for its files.
#[derive(Clone, Copy)]
pub enum Request {
    /// To do this.
    Do(Task),
    /// To decode dumps whose bytes are areas so.
    Dumps(Layout),
    /// The same of an input of bytes.
    Bytes(Layout),
    /// To draw a session as a diagram.
    Diagram,
    /// To show how this is asked for.
    HelpOn(Task),
}
