// A script whose source fails.
use crate::trouble::Trouble;
use line_io::{MemSink, MemSource, Sink, put_all};
use machine_run::{Status, Store, run};
use std::alloc::Global;

/// A script of two lines.
const SCRIPT: &[u8] = b"1 set 0 [1,2]\n1 print 0\n";

/// How many bytes of it one read gives: the first line and the begin of the second.
const PIECE: usize = 16;

/// The calls of `read` that fail, counted from 1.
const FAILING: &[u64] = &[2];

/// The most bytes of replies.
const ROOM: usize = 64;

/// What a run's end is called here.
fn end_of(status: Status) -> &'static [u8] {
    match status {
        Status::Done => b"the script ended\n",
        Status::ReadFault => b"the source failed\n",
        Status::WriteFault => b"the sink failed\n",
        Status::Memory => b"there was no memory\n",
        Status::Usage => b"there is no such option\n",
        Status::TooMuch => b"the script was too long\n",
    }
}

/// Runs the script, and writes what was answered, how it ended, and whether there is a machine in its last state.
pub fn run_cut_script<K: Sink>(alloc: Global, out: &mut K) -> Result<(), Trouble> {
    let mut store = Store::empty();
    let mut source = MemSource::new(alloc, SCRIPT, PIECE, FAILING)?;
    let mut replies = MemSink::new(alloc, ROOM, ROOM, &[])?;
    let status = run(alloc, &["embedding"], &mut store, &mut source, &mut replies);
    put_all(out, replies.bytes())?;
    put_all(out, end_of(status))?;
    match store {
        Store::One(_) => put_all(out, b"the machine stands\n")?,
        Store::Vacant => put_all(out, b"there is no machine\n")?,
    }
    Ok(())
}
