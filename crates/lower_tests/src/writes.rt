// What sinks over memory take, at once and gathered.
ghost use Rattle.std.specs.Prelude.{◌<◌};

use line_io::{Gathered, MemSink, put_all};
use std::alloc::Global;

// Texts, and whether each goes, to a sink that has room for 8 bytes, takes 3 at once and fails at its second call.
const TEXTS: [(&[u8], bool); 3] = [(b"abcd", false), (b"defgh", true), (b"i", false)];

fn texts_go(sink: &mut MemSink) -> bool {
    for (text, goes) in &TEXTS {
        if put_all(sink, text).is_ok() != *goes {
            return false;
        }
    }
    sink.bytes() == b"abcdefgh".as_slice()
}

// Two writes of one byte, gathered into one.
fn greets(sink: &mut MemSink) -> bool {
    let mut gathered = Gathered::new(sink);
    put_all(&mut gathered, b"h").is_ok()
        & put_all(&mut gathered, b"i").is_ok()
        & gathered.finish().is_ok()
}

// The second call of the sink fails.
fn greetings_go(sink: &mut MemSink) -> bool {
    greets(sink) && !greets(sink) && greets(sink) && sink.bytes() == b"hihi".as_slice()
}

// How writes go to a sink: each at once, or gathered.
#[derive(Clone, Copy)]
enum Way {
    AtOnce,
    Gathered,
}

// Whether they arrive at a sink that has room for 8 bytes and fails at its second call.
fn arrives(alloc: Global, piece: usize, way: Way) -> bool
    requires { 0 < piece }
{
    let Ok(mut sink) = MemSink::new(alloc, 8, piece, &[2]) else {
        return false;
    };
    match way {
        Way::AtOnce => texts_go(&mut sink),
        Way::Gathered => greetings_go(&mut sink),
    }
}

#[test]
fn writes_go_at_once_or_gathered(rt: HostRuntime) {
    assert!(rt; arrives(rt.alloc(), 3, Way::AtOnce));
    assert!(rt; arrives(rt.alloc(), 8, Way::Gathered));
}
