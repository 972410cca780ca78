// The text of a word without its parts.
ghost use Rattle.std.specs.Prelude.{◌≡◌, ℕ, ◌<◌, ◌++◌, List, codes, decimal, length};
ghost use Rattle.std.specs.Fmt.{signed_decimal};
ghost use Rattle.plain_term.specs.Order.{name_of};
ghost use Rattle.plain_term.specs.Text.{placed};
ghost use Rattle.line_io.specs.Sink.{WritesTold};
ghost use Rattle.term_order.specs.Own.{IsBytes, IsReadable, look_data};
ghost use Rattle.term_print.specs.Own.{leaf_text, list_begun, list_ended, map_begun, own_text, tuple_begun};

use crate::binary::put_binary;
use atom_names::AtomNames;
use itoa::Buffer;
use line_io::{Sink, SinkFault};
use term_order::{data, integer};
use term_read::Look;
use text_parts::{put, put_five, put_three};
use word_mem::WordMem;

/// Writes what stands before the parts of a look's tree, and all of its text where it has none.
pub fn put_own<K: Sink>(
    mem: &WordMem,
    names: &AtomNames,
    look: Look,
    tail: bool,
    sink: &mut K,
) -> Result<(), SinkFault>
    requires { IsReadable mem.now names.now look }
    ensures { (xs : List ℕ) → IsBytes mem.now (look_data look) xs
        → WritesTold K.wrote K.faults sink.old sink.new (own_text names.now tail xs look) result }
{
    match look {
        Look::Cons(_) => put(sink, list_begin(tail)),
        Look::Nil => put(sink, list_end(tail)),
        Look::Tuple(_) => put(sink, tuple_begin(tail)),
        Look::Map(_) => put(sink, map_begin(tail)),
        _ => put_placed(mem, names, look, tail, sink),
    }
}

// Writes the text of a term without parts, as it stands or as the last tail of a list.
fn put_placed<K: Sink>(
    mem: &WordMem,
    names: &AtomNames,
    look: Look,
    tail: bool,
    sink: &mut K,
) -> Result<(), SinkFault>
    requires { IsReadable mem.now names.now look }
    ensures { (xs : List ℕ) → IsBytes mem.now (look_data look) xs
        → WritesTold K.wrote K.faults sink.old sink.new (placed tail (leaf_text names.now xs look)) result }
{
    if tail {
        put(sink, b"|")?;
        put_leaf(mem, names, look, sink)?;
        return put(sink, b"]");
    }
    put_leaf(mem, names, look, sink)
}

// Writes the text of a term without parts.
fn put_leaf<K: Sink>(
    mem: &WordMem,
    names: &AtomNames,
    look: Look,
    sink: &mut K,
) -> Result<(), SinkFault>
    requires { IsReadable mem.now names.now look }
    ensures { (xs : List ℕ) → IsBytes mem.now (look_data look) xs
        → WritesTold K.wrote K.faults sink.old sink.new (leaf_text names.now xs look) result }
{
    match look {
        Look::Small(i) => put_small(i, sink),
        Look::Big(_) => put_integer(integer(mem, names, look), sink),
        Look::Atom(k) => put(sink, names.name(k)),
        Look::Pid(n) => put_pid(n, sink),
        Look::Ref(n, k) => put_ref(n, k, sink),
        Look::Fun(parts) => put_fun(names, parts.name, parts.arity, sink),
        _ => put_binary(mem, data(look), sink),
    }
}

// Writes an integer of one word in decimal.
fn put_small<K: Sink>(i: i64, sink: &mut K) -> Result<(), SinkFault>
    ensures { WritesTold K.wrote K.faults sink.old sink.new (signed_decimal i) result }
{
    let mut buffer = Buffer::new();
    put(sink, buffer.format(i).as_bytes())
}

// Writes an integer of two digits in decimal.
fn put_integer<K: Sink>(i: i128, sink: &mut K) -> Result<(), SinkFault>
    ensures { WritesTold K.wrote K.faults sink.old sink.new (signed_decimal i) result }
{
    let mut digits = Buffer::new();
    put(sink, digits.format(i).as_bytes())
}

// Writes a pid by its number.
fn put_pid<K: Sink>(n: u64, sink: &mut K) -> Result<(), SinkFault>
    ensures { WritesTold K.wrote K.faults sink.old sink.new (codes "<0." ++ (decimal n ++ codes ".0>")) result }
{
    let mut buffer = Buffer::new();
    put_three(sink, b"<0.", buffer.format(n).as_bytes(), b".0>")
}

// Writes a reference by the number of its process and its own.
fn put_ref<K: Sink>(n: u64, k: u64, sink: &mut K) -> Result<(), SinkFault>
    ensures { WritesTold K.wrote K.faults sink.old sink.new (codes "#Ref<0." ++ (decimal n ++ (codes "." ++ (decimal k ++ codes ">")))) result }
{
    let mut process = Buffer::new();
    let mut own = Buffer::new();
    put_five(
        sink,
        b"#Ref<0.",
        process.format(n).as_bytes(),
        b".",
        own.format(k).as_bytes(),
        b">",
    )
}

// Writes a fun by its name and arity.
fn put_fun<K: Sink>(names: &AtomNames, name: u64, arity: u64, sink: &mut K) -> Result<(), SinkFault>
    requires { name < length names.now }
    ensures { WritesTold K.wrote K.faults sink.old sink.new
        (codes "#Fun<" ++ (name_of names.now name ++ (codes "/" ++ (decimal arity ++ codes ">")))) result }
{
    let mut buffer = Buffer::new();
    put_five(
        sink,
        b"#Fun<",
        names.name(name),
        b"/",
        buffer.format(arity).as_bytes(),
        b">",
    )
}

// What a list begins with, or goes on with after a part.
pub fn list_begin(tail: bool) -> &'static [u8]
    ensures { result.now ≡ list_begun tail }
{
    if tail { b"," } else { b"[" }
}

// A list without parts, or the end of one with parts.
pub fn list_end(tail: bool) -> &'static [u8]
    ensures { result.now ≡ list_ended tail }
{
    if tail { b"]" } else { b"[]" }
}

// What a tuple begins with.
pub fn tuple_begin(tail: bool) -> &'static [u8]
    ensures { result.now ≡ tuple_begun tail }
{
    if tail { b"|{" } else { b"{" }
}

// What a map begins with.
fn map_begin(tail: bool) -> &'static [u8]
    ensures { result.now ≡ map_begun tail }
{
    if tail { b"|#{" } else { b"#{" }
}
