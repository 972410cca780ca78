//! Process heaps driven by scripts: each line of a script is one step, and is answered by one reply.
#![tactic(auto)]

use line_io::{StdSink, StdSource};
use machine_run::{Store, complaint, number, run_with};
use std::process::ExitCode;
use std::{env, io};

fn main(rt: HostRuntime) -> ExitCode {
    let mut store = Store::empty();
    let mut source = StdSource::new(rt.reader());
    let mut sink = StdSink::new(io::writer(&rt));
    let status = run_with(
        rt.alloc(),
        env::args(&rt),
        &mut store,
        &mut source,
        &mut sink,
    );
    if let Some(text) = complaint(status) {
        let _ = eprintln!(rt; "{text}");
    }
    ExitCode::from(number(status))
}
