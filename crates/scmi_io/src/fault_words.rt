//! The texts of faults. A number follows those that end in a space.

/// The first word of the line of a fault.
pub const FAULT: &str = "fault ";

/// The first line names no mode.
pub const MODE: &str = "mode";

/// An input is too long.
pub const SIZE: &str = "size";

/// A read failed.
pub const READ: &str = "read";

/// An input is not the line of an area.
pub const AREA: &str = "area";

/// The line of this number is not a line of a board.
pub const BOARD: &str = "board ";

/// The line of this number is not a line of a script.
pub const SCRIPT: &str = "script ";

/// The line of this number is not a line of a record.
pub const RECORD: &str = "record ";

/// A board breaks the rule of this number.
pub const PLAN: &str = "plan ";

/// A limit of a run was met.
pub const LIMIT: &str = "limit";

/// Out of memory.
pub const MEMORY: &str = "memory";

/// The output failed.
pub const WRITE: &str = "write";
