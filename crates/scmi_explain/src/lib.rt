//! What is wrong with an input that a program refused, for a person: line, item, what is expected,
//! and the likely slip.
//!
//! The main type is `Explanation`, whose text is what it prints. The main theorem is the contract
//! of `explain`: if the fault has a line, the explanation is of that line. That the texts are right
//! is tested. `Kept` and `LastLine` keep what an explanation needs of a run's input and output, and
//! are for the run the reader and the writer that they wrap.
#![tactic(auto)]

mod board;
mod causes;
mod dumps;
mod explanation;
mod fault;
mod fields;
mod fit;
mod forms;
mod kept;
mod last_line;
mod mode;
mod near;
mod numbers;
mod other_file;
mod piece;
mod plan;
mod rates;
mod rows;
mod script;
mod sentence;
mod size;
mod slip;
mod text;
mod words;

pub use causes::explain;
pub use explanation::Explanation;
pub use fault::Fault;
pub use kept::Kept;
pub use last_line::LastLine;
pub use mode::{Expected, MODES};
pub use near::nearest;
pub use text::split_first;
pub use words::HardwareStatuses;
