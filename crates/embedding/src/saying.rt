// Lines that are said one at a time, each with its reply.
use crate::talk::Talk;
use crate::trouble::Trouble;
use engine::Stepped;
use line_io::{LONGEST_LINE, MemSink, Sink, put_all};
use std::alloc::Global;

/// The words of the arena, both halves.
const WORDS: u64 = 4096;

/// How many lines may be said.
const LINES: u64 = 1_000_000;

/// The most bytes of a reply that are kept here. Of a longer one a front is written, and its line is done nevertheless.
const ROOM: usize = 64;

/// What is said. The second line is refused, and the machine goes on.
const SAID: [&[u8]; 6] = [
    b"1 set 0 {1,[a]}",
    b"1 hd 1 0",
    b"1 elem 1 2 0",
    b"1 print 1",
    b"sys quit",
    b"1 print 0",
];

/// Writes a line with a mark before it.
fn put_said<K: Sink>(line: &[u8], out: &mut K) -> Result<(), Trouble> {
    put_all(out, b"> ")?;
    put_all(out, line)?;
    put_all(out, b"\n")?;
    Ok(())
}

/// Says a line, and writes it and its reply to `out`.
fn put_exchange<K: Sink>(
    alloc: Global,
    talk: &mut Talk,
    line: &[u8],
    out: &mut K,
) -> Result<Stepped, Trouble> {
    let mut reply = MemSink::new(alloc, ROOM, ROOM, &[])?;
    if line.len() > LONGEST_LINE || talk.left() == 0 {
        return Err(Trouble::Unsaid);
    }
    let came = talk.say(line, &mut reply);
    put_said(line, out)?;
    put_all(out, reply.bytes())?;
    Ok(came)
}

/// Says lines until one ends the script.
pub fn say_lines<K: Sink>(alloc: Global, out: &mut K) -> Result<(), Trouble> {
    let Some(mut talk) = Talk::open(alloc, WORDS, LINES) else {
        return Err(Trouble::Memory);
    };
    for line in &SAID {
        if let Stepped::Quit = put_exchange(alloc, &mut talk, line, out)? {
            return Ok(());
        }
    }
    Ok(())
}
