// Whole runs, each with what it must write.
ghost use Rattle.std.specs.Prelude.{◌≡◌, ◌<◌};
ghost use Rattle.std.specs.Io.{WritesAtMost};

use line_io::{MemSink, MemSource};
use machine_run::{Status, Store, number, run, run_with};
use std::alloc::Global;
use std::env::FillError;
use std::rt::Env;
use std::test::Fail;
use std::{env, str};

// How many bytes of replies a test may have.
pub(crate) const ROOM: usize = 65_536;

// The words of a command line: texts, or bytes as the system gives them.
#[derive(Clone, Copy)]
pub(crate) enum Words<'a> {
    Texts(&'a [&'a str]),
    Bytes(&'a [&'a [u8]]),
}

// The words of a command line without options.
pub(crate) const NAME_ALONE: Words<'static> = Words::Texts(&["beam_heap"]);

// A system that gives these words, and no variables.
#[derive(Clone, Copy)]
struct Given<'a> {
    words: &'a [&'a [u8]],
}

impl<'a> Env for Given<'a> {
    fn arg(&self, i: usize, buf: &mut [u8]) -> Result<usize, FillError> {
        let Some(word) = self.words.get(i) else {
            return Err(FillError::NotPresent);
        };
        if buf.len() < word.len() {
            return Err(FillError::TooLong);
        }
        buf[..word.len()].copy_from_slice(word);
        Ok(word.len())
    }

    fn var(&self, _name: &str, _buf: &mut [u8]) -> Result<usize, FillError> {
        Err(FillError::NotPresent)
    }

    fn var_at(&self, _i: usize, _buf: &mut [u8]) -> Result<usize, FillError> {
        Err(FillError::NotPresent)
    }
}

// Which read and which write fail, counted from 1.
#[derive(Clone, Copy)]
pub(crate) struct Failing<'a> {
    pub(crate) reads: &'a [u64],
    pub(crate) writes: &'a [u64],
}

// No read and no write fails.
pub(crate) const NONE: Failing<'static> = Failing {
    reads: &[],
    writes: &[],
};

// What a run leaves in the store: nothing, a machine, or a machine with so many names.
#[derive(Clone, Copy)]
pub(crate) enum Left {
    Vacant,
    Machine,
    Named(u64),
}

// How a run must end: the number of its status, what was written, and what is left.
#[derive(Clone, Copy)]
pub(crate) struct Ending<'a> {
    pub(crate) ends: u8,
    pub(crate) written: &'a [u8],
    pub(crate) left: Left,
}

// The end of a run that is done and wrote this.
pub(crate) fn done(written: &[u8], left: Left) -> Ending {
    Ending {
        ends: number(Status::Done),
        written,
        left,
    }
}

// Whether this is what must be left.
fn is_left(store: &Store, left: Left) -> bool {
    match store {
        Store::Vacant => matches!(left, Left::Vacant),
        Store::One(machine) => match left {
            Left::Vacant => false,
            Left::Machine => true,
            Left::Named(names) => machine.names.count() == names,
        },
    }
}

// Does what the words ask for, and tells whether it ends so.
fn ends_so(
    alloc: Global,
    words: Words,
    store: &mut Store,
    source: &mut MemSource,
    sink: &mut MemSink,
    ending: Ending,
) -> bool
    requires { store.old ≡ Store.Vacant }
{
    let status = match words {
        Words::Texts(words) => run(alloc, words, store, source, sink),
        Words::Bytes(words) => {
            run_with(
                alloc,
                env::args(&(Given { words }, alloc)),
                store,
                source,
                sink,
            )
        }
    };
    number(status) == ending.ends && sink.bytes() == ending.written && is_left(store, ending.left)
}

// Nothing where no row is wrong, else the failure of this row.
pub(crate) fn told(wrong: Option<&[u8]>) -> Result<(), Fail> {
    match wrong {
        None => Ok(()),
        Some(row) => match str::from_utf8(row) {
            Ok(text) if !text.is_empty() => Err(Fail::new(text)),
            _ => Err(Fail::new("a row that is none or no text")),
        },
    }
}

// Whether a run by these words, with bytes that come and go in pieces, ends so. Where memory is short, it does not.
pub(crate) fn ends(
    alloc: Global,
    words: Words,
    script: &[u8],
    piece: usize,
    failing: Failing,
    ending: Ending,
) -> bool
    requires { 0 < piece }
{
    if let Ok(mut source) = MemSource::new(alloc, script, piece, failing.reads)
        && let Ok(mut sink) = MemSink::new(alloc, ROOM, piece, failing.writes)
    {
        let mut store = Store::empty();
        ends_so(alloc, words, &mut store, &mut source, &mut sink, ending)
    } else {
        false
    }
}

// Whether a script is read to its end and answered so by these words, in pieces of each size, and leaves this.
pub(crate) fn is_answered(alloc: Global, words: Words, script: &[u8], ending: Ending) -> bool {
    ends(alloc, words, script, 1, NONE, ending)
        && ends(alloc, words, script, 7, NONE, ending)
        && ends(alloc, words, script, 8192, NONE, ending)
}
