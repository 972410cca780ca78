//! A program with a machine of its own: it says lines to it one at a time and reads each reply, and runs a script whose source fails.
#![tactic(auto)]

mod failing;
mod saying;
mod talk;
mod trouble;

use line_io::StdSink;
use std::io;
use std::process::ExitCode;

fn main(rt: HostRuntime) -> ExitCode {
    let mut out = StdSink::new(io::writer(&rt));
    if saying::say_lines(rt.alloc(), &mut out).is_err() {
        return ExitCode::FAILURE;
    }
    if failing::run_cut_script(rt.alloc(), &mut out).is_err() {
        return ExitCode::FAILURE;
    }
    ExitCode::SUCCESS
}
