// The text of an item that stands alone.
ghost use Rattle.std.specs.Prelude.{◌++◌, [], codes, decimal};
ghost use Rattle.std.specs.Fmt.{signed_decimal};
ghost use Rattle.plain_term.specs.Order.{name_of};
ghost use Rattle.plain_term.specs.Text.{text};
ghost use Rattle.line_io.specs.Sink.{WritesTold};
ghost use Rattle.trial_space.specs.Items.{alone};

use atom_names::AtomNames;
use itoa::Buffer;
use line_io::{Sink, SinkFault};
use plain_term::Item;
use text_parts::{put, put_three};

/// Writes the text of an item's tree. An atom with no name has no text.
pub fn print_item<K: Sink>(names: &AtomNames, item: Item, sink: &mut K) -> Result<(), SinkFault>
    ensures { WritesTold K.wrote K.faults sink.old sink.new (text names.now [] (alone item)) result }
{
    match item {
        Item::Int(i) => print_int(i, sink),
        Item::Atom(k) => print_name(names, k, sink),
        Item::Pid(n) => print_pid(n, sink),
        _ => put(sink, b"[]"),
    }
}

// An integer in decimal.
fn print_int<K: Sink>(i: i128, sink: &mut K) -> Result<(), SinkFault>
    ensures { WritesTold K.wrote K.faults sink.old sink.new (signed_decimal i) result }
{
    let mut buffer = Buffer::new();
    put(sink, buffer.format(i).as_bytes())
}

// The name of an atom, where it has one.
fn print_name<K: Sink>(names: &AtomNames, k: u64, sink: &mut K) -> Result<(), SinkFault>
    ensures { WritesTold K.wrote K.faults sink.old sink.new (name_of names.now k) result }
{
    if k < names.count() {
        return put(sink, names.name(k));
    }
    put(sink, b"")
}

// A pid by its number.
fn print_pid<K: Sink>(n: u64, sink: &mut K) -> Result<(), SinkFault>
    ensures { WritesTold K.wrote K.faults sink.old sink.new (codes "<0." ++ (decimal n ++ codes ".0>")) result }
{
    let mut buffer = Buffer::new();
    put_three(sink, b"<0.", buffer.format(n).as_bytes(), b".0>")
}
