// The text of a binary.
ghost use Rattle.std.specs.Prelude.{◌≡◌, ℕ, List, decimal, ◌++◌};
ghost use Rattle.plain_term.specs.Text.{binary_text};
ghost use Rattle.line_io.specs.Sink.{WritesTold};
ghost use Rattle.term_read.specs.Look.{HasBytes};
ghost use Rattle.term_order.specs.Own.{IsBytes};
ghost use Rattle.term_print.specs.Own.{comma_before};

use itoa::Buffer;
use line_io::{Sink, SinkFault};
use term_order::byte;
use term_read::Bytes;
use text_parts::{put, put_two};
use word_mem::WordMem;

/// Writes the bytes of a binary in decimal, divided by commas.
pub fn put_binary<K: Sink>(mem: &WordMem, bytes: Bytes, sink: &mut K) -> Result<(), SinkFault>
    requires { HasBytes mem.now bytes }
    ensures { (xs : List ℕ) → IsBytes mem.now bytes xs → WritesTold K.wrote K.faults sink.old sink.new (binary_text xs) result }
{
    put(sink, b"<<")?;
    for i in 0..bytes.len {
        put_byte(comma(i), byte(mem, bytes, i), sink)?;
    }
    put(sink, b">>")
}

// What stands before byte `i`, from 0.
fn comma(i: u64) -> &'static [u8]
    ensures { result.now ≡ comma_before i }
{
    if i == 0 { b"" } else { b"," }
}

// Writes a byte in decimal after a divider.
fn put_byte<K: Sink>(divider: &[u8], byte: u8, sink: &mut K) -> Result<(), SinkFault>
    ensures { WritesTold K.wrote K.faults sink.old sink.new (divider.now ++ decimal byte) result }
{
    let mut buffer = Buffer::new();
    put_two(sink, divider, buffer.format(byte).as_bytes())
}
