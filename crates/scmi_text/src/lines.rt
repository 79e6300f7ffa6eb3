//! The lines of runs. A `%` is a number, a name, or words that each follow a space.

pub(crate) const TOKEN: &str = "% token %\n";

pub(crate) const POSTED: &str = "% posted\n";

pub(crate) const NOT_POSTED: &str = "% post %\n";

pub(crate) const SERVED: &str = "serve % %\n";

/// The agent collected, and no answer was there.
pub(crate) const NOT_ANSWERED: &str = "% nothing\n";

pub(crate) const REPLY: &str = "% reply%\n";

pub(crate) const RELEASED: &str = "% released\n";

pub(crate) const ERROR: &str = "% error\n";

pub(crate) const CLOSED: &str = "% closed\n";

pub(crate) const ADVANCED: &str = "advance %\n";

pub(crate) const ADVANCE_FAILED: &str = "advance failed %\n";

pub(crate) const REPORTED: &str = "report %\n";

pub(crate) const FLUSHED: &str = "flush % %\n";

pub(crate) const P2A: &str = "% p2a%\n";

pub(crate) const NO_P2A: &str = "% p2a none\n";

pub(crate) const P2A_ERROR: &str = "% p2a error\n";

pub(crate) const CLOSE: &str = "% close %\n";

pub(crate) const SHUT: &str = "shut % %\n";

pub(crate) const RESTARTED: &str = "restart % done\n";

pub(crate) const TRACE: &str = "trace %\n";

pub(crate) const GOT: &str = "% got%\n";

pub(crate) const LIMIT: &str = "% limit\n";

pub(crate) const UNTIL_OK: &str = "% until ok\n";

pub(crate) const UNTIL_LIMIT: &str = "% until limit\n";
