//! The program: a platform controller and its agents over standard input and output.
//!
//! Its first line names a mode. What it writes, and its exit status, are those of `run` of
//! `scmi_modes`, whose contract is the main theorem.
#![tactic(auto)]

use scmi_modes::{OpenGate, RunError, run};
use std::io;
use std::io::{BufWriter, Write};
use std::process::ExitCode;

fn main(rt: HostRuntime) -> ExitCode {
    let alloc = rt.alloc();
    let mut reader = rt.stdin();
    // If there is no memory for a buffer the output goes straight out.
    let Ok(mut writer) = BufWriter::new(alloc, io::writer(&rt)) else {
        let mut writer = io::writer(&rt);
        return ExitCode::from(run(&rt, alloc, &OpenGate, &mut reader, &mut writer));
    };
    let status = run(&rt, alloc, &OpenGate, &mut reader, &mut writer);
    if writer.flush().is_err() {
        return ExitCode::from(RunError::Write.status());
    }
    ExitCode::from(status)
}
