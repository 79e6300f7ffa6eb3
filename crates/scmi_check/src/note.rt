//! What a record has that is not judged.

/// What a record has that is not judged, with the number of its line.
#[derive(Clone, Copy)]
pub struct Note {
    pub line: u32,
    pub kind: NoteKind,
}

/// Why it is not judged.
#[derive(Clone, Copy)]
pub enum NoteKind {
    /// A command that has no answer.
    Unanswered,
    /// A response in a trace that answers no command which waits, or the command that follows it
    /// and has its token.
    Unmatched,
    /// Events of a trace that are lost.
    Lost(Lost),
}

/// How many events of a trace are lost before a line.
#[derive(Clone, Copy)]
pub enum Lost {
    /// So many.
    Events(u64),
    /// Some: the trace does not say how many.
    Unknown,
}
