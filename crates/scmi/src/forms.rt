//! How each task is asked for.

use crate::command::{
    BINARY, FIRST, JSON, MERMAID, OFFSET, PROTOCOLS, REFUSALS, RESTARTS, SAVE, SECOND, SIZE,
    STRIDE, TAP,
};
use crate::request::Task;

/// What may follow a task's word.
#[derive(Clone, Copy)]
pub enum Operand {
    /// A word, such as the name of a file.
    Word(&'static str),
    /// An option, and what usage calls its value.
    Value(&'static str, &'static str),
    Flag(&'static str),
    /// A flag that has a letter too.
    Letter(&'static str, char),
}

/// How a task is asked for, and what help shows of it.
#[derive(Clone, Copy)]
pub struct Form {
    pub task: Task,
    /// The word that asks for it.
    pub word: &'static str,
    pub operands: &'static [Operand],
    /// The words of the command line.
    pub usage: &'static str,
    /// What it does, in the list of all tasks.
    pub summary: &'static str,
    /// What it does, at the head of its own help.
    pub about: &'static str,
    /// What else there is to know of it.
    pub details: &'static str,
    pub example: &'static str,
}

/// How each task is asked for, in the order of the enum.
const FORMS: [Form; 8] = [
    Form {
        task: Task::Run,
        word: "run",
        operands: &[Operand::Word(FIRST)],
        usage: "scmi run [FILE]",
        summary: "runs a script (the default command)",
        about: "Runs a script of a platform and its agents, and prints a line for each step.",
        details: "\
The first line of the input is the mode: once, steps words, steps rings, threads words,
threads rings, hardware words or hardware rings. In the last two names may be in place of numbers,
as in a session. docs/SCRIPTS.md has all lines. scmi alone, and scmi -, run standard input.",
        example: "scmi run examples/two_agents.in",
    },
    Form {
        task: Task::Decode,
        word: "decode",
        operands: &[
            Operand::Letter(BINARY, 'b'),
            Operand::Value(OFFSET, "N"),
            Operand::Value(SIZE, "N"),
            Operand::Value(STRIDE, "N"),
            Operand::Word(FIRST),
        ],
        usage: "scmi decode [-b] [--offset N] [--size N] [--stride N] [FILE]",
        summary: "decodes dumps of shared memory",
        about: "\
Decodes dumps of shared memory: busy or free, the message by its name, its status and fields.",
        details: "\
The input has dumps of channels of 60 to 284 bytes, as xxd, od, hexdump -C, U-Boot, gdb, crash,
devmem, the kernel's log and debuggers print them (docs/DECODE.md), and lines of ftrace and of a
run that show a message. Standard error says which format each dump is read in.
A dump is one area. --size N reads areas of N bytes one after the other, --stride N one each N
bytes, and --offset N begins at byte N of each dump; N is decimal, or hexadecimal after 0x.
-b, or --binary, reads bytes instead of a dump, as dd copies them.",
        example: "scmi decode --size 128 examples/phone.dump",
    },
    Form {
        task: Task::Chart,
        word: "chart",
        operands: &[
            Operand::Flag(MERMAID),
            Operand::Word(FIRST),
            Operand::Word(SECOND),
        ],
        usage: "scmi chart [--mermaid] [FILE | BOARD RECORD]",
        summary: "draws a script's run, or a record, as a picture (SVG) or a Mermaid diagram",
        about: "Draws a script's run, or the messages of a record, as a sequence chart.",
        details: "\
The input is that of scmi run in the modes steps words, steps rings, hardware words,
hardware rings, threads words and threads rings, at most 2,000 steps. A run of agents in
threads is drawn in the order in which the platform executed it.
With two files it draws a record that scmi check reads, such as a trace of Linux, of a platform with
that board: at most 2,000 replies and messages. RECORD may be -, standard input.
The output is an SVG; docs/CHART.md has the signs. --mermaid writes a diagram as text, which
GitHub and most editors draw.",
        example: "scmi chart examples/two_agents.in > run.svg",
    },
    Form {
        task: Task::Session,
        word: "session",
        operands: &[Operand::Value(SAVE, "FILE"), Operand::Word(FIRST)],
        usage: "scmi session [--save FILE] BOARD",
        summary: "an interactive platform: type steps, see replies",
        about: "\
An interactive platform: each line of standard input is a step on the board of a file, and its
answer is printed before the next line is read.",
        details: "\
BOARD has the lines of a board, from board to end. A step is one of the mode hardware words, in
numbers or with names: agents, domains and clocks by their names on the board, messages by theirs,
on and off, flags such as async, and rates in Hz or with a unit, as 600MHz or 1.5GHz. Flags that
are left out are 0. 'help' lists the steps, 'help do' explains one, and 'quit' ends the session.
After the line 'words on' replies are described, in lines that begin with #, until 'words off'. A
line that is not a step is explained on standard error, and the session goes on. A dropped
notification is reported there too.
--save writes the board and the steps that were taken into FILE, a script for scmi run and chart.
On a terminal there is a prompt, and replies are described from the start; rlwrap scmi session BOARD
adds line editing and history. docs/SCRIPTS.md has more.",
        example: "echo 'do ap POWER_STATE_SET cpu on' | scmi session examples/phone.board",
    },
    Form {
        task: Task::Check,
        word: "check",
        operands: &[
            Operand::Flag(TAP),
            Operand::Flag(JSON),
            Operand::Value(PROTOCOLS, "LIST"),
            Operand::Flag(REFUSALS),
            Operand::Flag(RESTARTS),
            Operand::Word(FIRST),
            Operand::Word(SECOND),
        ],
        usage: "\
scmi check [--tap] [--json] [--protocols LIST] [--refusals] [--restarts] BOARD [RECORD]",
        summary: "checks a record of another platform's replies against SCMI",
        about: "\
Checks a record of a platform's channels against the definitions of SCMI.",
        details: "\
BOARD has the lines of the platform's board, from board to end. RECORD, or standard input, has
the commands, each before its reply, and the other messages, in the order in which they were seen;
a trace of Linux's ftrace with the event scmi_msg_dump is a record as it is. Commands may have names
in place of numbers, as in a session.
A line is printed for each reply and each message: same; own, with the rule of this project's own
by which another reply is possible; or differs, with what was expected. A line is printed for what
can't be checked too: a command is unanswered, a reply unmatched, or events are lost. The last line
counts them.
--protocols 0x10,0x13 checks the messages of these protocols, and skips others; without it those of
0x10, 0x11 and 0x14 are checked.
--refusals is for hardware that may refuse what was accepted, or with another status than
HARDWARE_ERROR: a delayed response of HARDWARE_ERROR is then right too, and so is a status such as
DENIED or BUSY in the answer to a command that was to change the hardware.
--restarts is for agents that may restart anywhere: what one asked for is then gone, its requests
for notifications, its outbox, its delayed responses.
A record may be as long as it likes: it is read a line at a time, and the report is written as it
is read.
--tap prints TAP, for a test system, and --json an object a line. docs/CHECK.md has the lines and
the rules.
Exit status: 0 if nothing differs, 5 if something does, 6 if nothing does but the check ended before
the record, 2 if there is nothing to check.",
        example: "scmi check examples/phone.board examples/phone.record",
    },
    Form {
        task: Task::Table,
        word: "table",
        operands: &[Operand::Word(FIRST)],
        usage: "scmi table [BOARD]",
        summary: "prints a board as tables in C, for the library for firmware",
        about: "\
Prints a board as constant tables in C, of which the library for firmware makes a platform.",
        details: "\
BOARD, or standard input, has the lines of a board, from board to end, with lines channel, keep,
deny, absent and free before end. A program compiles the tables with scmi.h, and passes them to
scmi_platform_new_of_tables. docs/C.md has more.",
        example: "scmi table examples/phone.board > phone_board.c",
    },
    Form {
        task: Task::Help,
        word: "help",
        operands: &[Operand::Word(FIRST)],
        usage: "scmi help [COMMAND]",
        summary: "prints the help of a command, as scmi COMMAND --help does",
        about: "Prints the help of a command; without one, the list of commands.",
        details: "\
The help of a command has its options, and the forms of its files. --help, or -h, prints the same
after a command, and the list of commands without one.",
        example: "scmi help session",
    },
    Form {
        task: Task::Version,
        word: "version",
        operands: &[],
        usage: "scmi version",
        summary: "prints the version, as scmi --version does",
        about: "Prints the version of this program, and the specification that it follows.",
        details: "\
--version, or -V, prints the same. A program that was built without proof adds that it is not proved.",
        example: "scmi version",
    },
];

/// How each task is asked for. The table is named here alone, since each function that names a
/// constant has it whole in its proof.
pub fn forms() -> &'static [Form; 8] {
    &FORMS
}

/// How a task is asked for.
pub fn form_of(task: Task) -> &'static Form {
    &forms()[task as usize]
}

/// The task whose word is exactly this one.
pub fn task_of(word: &str) -> Option<Task> {
    for form in forms() {
        if form.word == word {
            return Some(form.task);
        }
    }
    None
}
