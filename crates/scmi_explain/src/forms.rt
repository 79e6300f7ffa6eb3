//! The forms of lines.

/// The form of a line.
#[derive(Clone, Copy)]
pub(crate) struct Form {
    /// What each item has to be: a word, or in capitals what `fields.rt` says of it. `a|b` is one
    /// of these words, and `a/b` the first one, where other forms have the others.
    pub items: &'static str,
    /// The whole form, as the documents write it.
    pub text: &'static str,
}

impl Form {
    /// The first word.
    pub(crate) fn word(self) -> &'static str {
        match self.items.split_once(' ') {
            Some((word, _)) => word,
            None => self.items,
        }
    }
}

macro_rules! form {
    ($items:literal) => {
        Form { items: $items, text: $items }
    };
    ($items:literal => $text:expr) => {
        Form { items: $items, text: $text }
    };
}

/// Forms, of which those that the documents write with other items have their text.
macro_rules! forms {
    ($($items:literal $(=> $text:expr)?;)*) => {
        [$(form!($items $(=> $text)?)),*]
    };
}

/// The first line of a board.
pub(crate) const HEADINGS: [Form; 1] = forms!["board VENDOR SUBVENDOR VERSION TRUSTED";];

/// How many of the lines of a board are its rows and its last line.
pub(crate) const ROWS: usize = 6;

const CHANNEL: &str = "channel AGENT BYTES [one-way] [pending N]";

/// The other lines of a board, and behind the rows those that some modes take.
pub(crate) const BOARD_LINES: [Form; 15] = forms![
    "agent NAME";
    "domain NAME on|off KINDS";
    "clock NAME on|off RATE list R,R,..";
    "clock NAME on|off RATE steps RATE RATE RATE" => "clock NAME on|off RATE steps LOW HIGH STEP";
    "device D,D,..|- C,C,..|-";
    "end";
    "channel AGENT BYTES one-way/pending pending N" => CHANNEL;
    "channel AGENT BYTES pending N" => CHANNEL;
    "channel AGENT BYTES one-way" => CHANNEL;
    "channel AGENT BYTES" => CHANNEL;
    "keep domain|clock N";
    "deny AGENT DEVICE [PROTOCOL]";
    "absent domain|clock N";
    "free clock N";
    "protocols P,P,..";
];

/// How many of the lines of a script on one thread are those of all such modes.
pub(crate) const STEPS: usize = 11;

/// The lines of a script on one thread, and behind those of all such modes those of the modes
/// `hardware`.
pub(crate) const SCRIPT_LINES: [Form; 21] = forms![
    "call A P M W..";
    "raw A H W..";
    "bad A LENGTH H";
    "serve A";
    "collect A";
    "do A P M W..";
    "advance";
    "flush A";
    "p2a A";
    "close A";
    "shut A";
    "fail A P M W..";
    "refuse A STATUS P M W..";
    "advance failed/refused" => "advance failed";
    "advance refused STATUS";
    "report state/rate/enabled/first/settled D W" => "report state D W";
    "report rate C LOW HIGH";
    "report enabled C B";
    "report first PLACE";
    "report settled C LOW HIGH";
    "restart A";
];

/// The lines of a script on one thread that all such modes take.
pub(crate) fn steps() -> &'static [Form] {
    let lines: &'static [Form] = &SCRIPT_LINES;
    &lines[..STEPS]
}

/// The lines of the scripts of agents in threads.
pub(crate) const ORDERS: [Form; 5] = forms![
    "script A";
    "call P M W..";
    "until D S";
    "p2a K";
    "close";
];

/// The rows of a board, and its last line.
pub(crate) fn rows() -> &'static [Form] {
    let lines: &'static [Form] = &BOARD_LINES;
    &lines[..ROWS]
}

/// The lines behind the rows of a board.
pub(crate) fn lines_behind() -> &'static [Form] {
    let lines: &'static [Form] = &BOARD_LINES;
    &lines[ROWS..]
}
