//! The library's calls that take memory, one by one: each that is refused memory is made again, or
//! given up, and a line reports what each answered. `tests/faults/run` refuses each request in turn.
//!
//! With the arguments `exchange words|rings COUNT WORDS` it makes one exchange again and again, in
//! place of the calls; with `command platform|core COUNT PROTOCOL MESSAGE WORD ..` a platform
//! executes one command, and with `platform+none`, `platform+driver` and their kin beside hardware.

mod board;
mod channels;
mod commands;
mod core_calls;
mod exchanges;
mod lines;
mod registers;
mod session;

use crate::probe::channels::{make_channel, make_command};
use crate::probe::commands::Commands;
use crate::probe::core_calls::call_core;
use crate::probe::exchanges::Exchanges;
use crate::probe::lines::Lines;
use scmi_link::RingChannel;
use scmi_words::WordChannel;
use std::alloc::Global;
use std::env;
use std::io::{self, Write};
use std::process::ExitCode;

/// Does what the arguments ask for. The status is 1 if a call failed.
pub(crate) fn run(rt: &HostRuntime) -> ExitCode {
    let alloc = rt.alloc();
    let mut writer = io::writer(rt);
    let mut lines = Lines::new(&mut writer);
    let words = words(rt, alloc);
    if let Some(exchanges) = Exchanges::asked_for(&words) {
        exchanges.make(alloc, &mut lines);
    } else if let Some(commands) = Commands::asked_for(&words) {
        commands.make(alloc, &mut lines);
    } else {
        call_each(alloc, &mut lines);
    }
    ExitCode::from(u8::from(lines.has_failed()))
}

/// The words of the command line; none if there was no memory to read them.
fn words(rt: &HostRuntime, alloc: Global) -> Vec<String> {
    match env::args(rt) {
        Ok(words) => words.collect(alloc).unwrap_or(Vec::new(alloc)),
        Err(_) => Vec::new(alloc),
    }
}

fn call_each<W: Write>(alloc: Global, lines: &mut Lines<'_, W>) {
    make_channel::<RingChannel, _>(alloc, lines);
    make_channel::<WordChannel, _>(alloc, lines);
    call_core(alloc, lines);
    make_command::<RingChannel, _>(alloc, lines, false);
    make_command::<WordChannel, _>(alloc, lines, false);
    make_command::<WordChannel, _>(alloc, lines, true);
}
