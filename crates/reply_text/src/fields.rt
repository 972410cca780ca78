// A text with numbers after it.
ghost use Rattle.std.specs.Prelude.{◌≡◌};
ghost use Rattle.line_io.specs.Sink.{WritesTold};
ghost use Rattle.reply_text.specs.Texts.{field_text, fields_text};

use itoa::Buffer;
use line_io::{Sink, SinkFault};
use text_parts::{put, put_two};

/// Writes the text, and then each number in decimal after a blank.
pub fn put_fields<K: Sink>(text: &[u8], numbers: &[u64], sink: &mut K) -> Result<(), SinkFault>
    ensures { WritesTold K.wrote K.faults sink.old sink.new (fields_text text.now numbers.now) result }
{
    put(sink, text)?;
    for n in numbers {
        put_field(*n, sink)?;
    }
    Ok(())
}

// Writes a number after a blank.
fn put_field<K: Sink>(n: u64, sink: &mut K) -> Result<(), SinkFault>
    ensures { WritesTold K.wrote K.faults sink.old sink.new (field_text n) result }
{
    let mut number = Buffer::new();
    put_two(sink, b" ", number.format(n).as_bytes())
}
