//! What is judged of a record.
use scmi_judge::Unseen;

/// What is judged of a record.
#[derive(Clone, Copy)]
pub struct CheckOptions<'a> {
    /// The protocols whose messages are judged.
    pub protocols: &'a [u8],
    /// What may have happened that no entry shows.
    pub unseen: Unseen,
}
