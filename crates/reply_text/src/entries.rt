// Entries of lists in brackets: a comma stands before each but the first.
ghost use Rattle.std.specs.Prelude.{◌≡◌, ◌++◌, Bool, decimal};
ghost use Rattle.line_io.specs.Sink.{WritesTold};
ghost use Rattle.reply_text.specs.Texts.{bin_entry, divider, fun_entry, object_entry};

use itoa::Buffer;
use line_io::{Sink, SinkFault};
use text_parts::{put, put_five, put_four, put_two};

/// Writes an entry that is a number.
pub fn put_number<K: Sink>(first: bool, n: u64, sink: &mut K) -> Result<(), SinkFault>
    ensures { WritesTold K.wrote K.faults sink.old sink.new (divider first ++ decimal n) result }
{
    let mut number = Buffer::new();
    put_two(sink, divider_bytes(first), number.format(n).as_bytes())
}

/// Writes the entry of a shared binary, by its id and its count.
pub fn put_bin<K: Sink>(first: bool, id: u64, count: u64, sink: &mut K) -> Result<(), SinkFault>
    ensures { WritesTold K.wrote K.faults sink.old sink.new (divider first ++ bin_entry id count) result }
{
    let mut ids = Buffer::new();
    let mut counts = Buffer::new();
    put_four(
        sink,
        divider_bytes(first),
        ids.format(id).as_bytes(),
        b":",
        counts.format(count).as_bytes(),
    )
}

/// Writes the entry of a fun, by its name, its arity and its count.
pub fn put_fun<K: Sink>(
    first: bool,
    name: &[u8],
    arity: u64,
    count: u64,
    sink: &mut K,
) -> Result<(), SinkFault>
    ensures { WritesTold K.wrote K.faults sink.old sink.new (divider first ++ fun_entry name.now arity count) result }
{
    put(sink, divider_bytes(first))?;
    let mut arities = Buffer::new();
    let mut counts = Buffer::new();
    put_five(
        sink,
        name,
        b"/",
        arities.format(arity).as_bytes(),
        b":",
        counts.format(count).as_bytes(),
    )
}

/// Writes the entry of an object, by its place, its kind and its size.
pub fn put_object<K: Sink>(
    first: bool,
    place: u64,
    kind: &str,
    size: u64,
    sink: &mut K,
) -> Result<(), SinkFault>
    ensures { WritesTold K.wrote K.faults sink.old sink.new (divider first ++ object_entry place kind.now size) result }
{
    put(sink, divider_bytes(first))?;
    let mut places = Buffer::new();
    let mut sizes = Buffer::new();
    put_five(
        sink,
        places.format(place).as_bytes(),
        b":",
        kind.as_bytes(),
        b":",
        sizes.format(size).as_bytes(),
    )
}

// What stands before an entry.
fn divider_bytes(first: bool) -> &'static [u8]
    ensures { result.now ≡ divider first }
{
    if first { b"" } else { b"," }
}
