//! A record that was checked.
ghost use Rattle.std.specs.Prelude.{◌≡◌};
ghost use Rattle.scmi_check.specs.Checked.{status_by};

/// The exit status if an entry differs.
pub const DIFFERS: u8 = 5;

/// The exit status if none differs of the entries that are judged, and others are not.
pub const UNSURE: u8 = 6;

/// A record that was checked, whose entries and notes its listener was given.
#[derive(Drop)]
pub struct Checked {
    /// Whether an entry that is judged differs, but by a rule of the profile's own.
    pub differs: bool,
    /// The line of the first entry that is not judged, since more platforms may be behind the
    /// record than a check keeps.
    pub unsure: Option<u32>,
    /// How many entries and notes are of protocols that are not judged. It stays at 2^32 - 1.
    pub skipped: u32,
    /// These protocols, in the order in which they were found.
    pub protocols: Vec<u8>,
}

impl Checked {
    /// The exit status: `DIFFERS` if an entry differs, but by a rule of the profile's own; else
    /// `UNSURE` if one is not judged; else 0.
    pub fn status(&self) -> u8
        ensures { result ≡ status_by self.now.differs self.now.unsure }
    {
        if self.differs {
            DIFFERS
        } else if self.unsure.is_some() {
            UNSURE
        } else {
            0
        }
    }
}
