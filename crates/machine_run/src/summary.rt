// The one line that is written for a script that was made.
ghost use Rattle.std.specs.Prelude.{◌≡◌, ◌+◌, ◌≤◌, ◌++◌, [], length, decimal};
ghost use Rattle.arrayvec.specs.ArrayVec.{array_vec_len};
ghost use Rattle.machine_run.specs.Summary.{EndsMade, summary_text};

use arrayvec::ArrayVec;
use engine::Status;
use itoa::Buffer;
use line_io::{Sink, SinkFault, Summary, put_all};

/// How many bytes the buffer of the line holds.
const LINE_ROOM: usize = 128;

/// Puts a text behind what the line has.
fn put(line: &mut ArrayVec<u8, LINE_ROOM>, text: &[u8])
    requires { array_vec_len line.old + length text.now ≤ LINE_ROOM }
    ensures { line.new.items ≡ line.old.items ++ text.now }
{
    let _ = line.try_extend_from_slice(text);
}

/// Puts a text and a number in decimal.
fn put_counted(line: &mut ArrayVec<u8, LINE_ROOM>, text: &[u8], n: u64)
    requires { array_vec_len line.old + (length text.now + 20) ≤ LINE_ROOM }
    ensures text { line.new.items ≡ line.old.items ++ (text.now ++ decimal n) }
    ensures short { array_vec_len line.new ≤ array_vec_len line.old + (length text.now + 20) }
{
    put(line, text);
    let mut buffer = Buffer::new();
    put(line, buffer.format(n).as_bytes());
}

/// Makes an empty line that of the numbers, with its line end.
fn put_numbers(line: &mut ArrayVec<u8, LINE_ROOM>, numbers: &Summary)
    requires { line.old.items ≡ [] }
    ensures { line.new.items ≡ summary_text numbers.now }
{
    put_counted(line, b"lines ", numbers.lines);
    put_counted(line, b" errors ", numbers.errors);
    put_counted(line, b" bytes ", numbers.bytes);
    put_counted(line, b" sum ", numbers.sum);
    put(line, b"\n");
}

/// Writes the line of the numbers, in one piece.
pub(crate) fn put_summary<K: Sink>(numbers: &Summary, sink: &mut K) -> Status
    ensures { EndsMade result (record { wrote = K.wrote; faults = K.faults; before = sink.old; after = sink.new })
        (summary_text numbers.now) }
{
    let mut line = ArrayVec::new();
    put_numbers(&mut line, numbers);
    match put_all(sink, line.as_slice()) {
        Ok(()) => Status::Done,
        Err(SinkFault) => Status::WriteFault,
    }
}
