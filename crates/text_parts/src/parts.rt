// Writing one text after another.
ghost use Rattle.std.specs.Prelude.{◌++◌};
ghost use Rattle.line_io.specs.Sink.{WritesTold};

use line_io::{Sink, SinkFault, put_all};

/// Writes bytes.
pub fn put<K: Sink>(sink: &mut K, bytes: &[u8]) -> Result<(), SinkFault>
    ensures { WritesTold K.wrote K.faults sink.old sink.new bytes.now result }
{
    put_all(sink, bytes)
}

/// Writes two texts, one after the other.
pub fn put_two<K: Sink>(sink: &mut K, a: &[u8], b: &[u8]) -> Result<(), SinkFault>
    ensures { WritesTold K.wrote K.faults sink.old sink.new (a.now ++ b.now) result }
{
    put(sink, a)?;
    put(sink, b)
}

/// Writes three texts.
pub fn put_three<K: Sink>(sink: &mut K, a: &[u8], b: &[u8], c: &[u8]) -> Result<(), SinkFault>
    ensures { WritesTold K.wrote K.faults sink.old sink.new (a.now ++ (b.now ++ c.now)) result }
{
    put(sink, a)?;
    put_two(sink, b, c)
}

/// Writes three texts between two others.
pub fn put_five<K: Sink>(
    sink: &mut K,
    a: &[u8],
    b: &[u8],
    c: &[u8],
    d: &[u8],
    e: &[u8],
) -> Result<(), SinkFault>
    ensures { WritesTold K.wrote K.faults sink.old sink.new (a.now ++ (b.now ++ (c.now ++ (d.now ++ e.now)))) result }
{
    put(sink, a)?;
    put_four(sink, b, c, d, e)
}

/// Writes four texts.
pub fn put_four<K: Sink>(
    sink: &mut K,
    a: &[u8],
    b: &[u8],
    c: &[u8],
    d: &[u8],
) -> Result<(), SinkFault>
    ensures { WritesTold K.wrote K.faults sink.old sink.new (a.now ++ (b.now ++ (c.now ++ d.now))) result }
{
    put(sink, a)?;
    put_three(sink, b, c, d)
}
