// Lines from a source, one at a time, through a buffer of a fixed size.
ghost use Rattle.std.specs.Prelude.{◌≡◌, ◌≢◌, ◌⊎◌, ◌||◌, ℕ, ◌+◌, ◌-◌, ◌<◌, ◌≤◌, ◌==◌, nat_lt, true, false, List, [], ◌∷◌, ◌++◌, length, take, drop, position, slice_range, slice_index, Option, None, IfOk, IfSome, IfNone, MatchOption, vec_len};
ghost use Rattle.std.specs.Io.KnownBytes.{IsAtEnd};
ghost use Rattle.std.specs.Str.Lines.{strip_carriage_return};
ghost use Rattle.line_io.specs.Faults.{Rose};
ghost use Rattle.line_io.specs.Lines.{Line};
ghost use Rattle.line_io.specs.Source.{CountsWithin, EndsAt, Gave, came};
ghost use Rattle.line_io.specs.declared.source.Got.{Got};
ghost use Rattle.line_io.specs.declared.reader.TheConstants.{LONGEST_LINE, SIZE};

use crate::fault::OpenFault;
use crate::source::{Got, Source};
use std::alloc::Global;

/// How many lines, and how many bytes, a reader may take.
#[derive(Clone, Copy)]
pub struct Limits {
    pub lines: u64,
    pub bytes: u64,
}

/// A line, a line that is longer than `LONGEST_LINE`, the end, a fault of the source, or more input than the limits allow.
#[derive(Clone, Copy)]
pub enum LineGot {
    Line,
    Long,
    End,
    Fault,
    TooMuch,
}

// What the input has come to: more may come; more came than is allowed, and was cut off; the last three are final.
#[derive(Clone, Copy)]
enum Stop {
    Open,
    Cut,
    Ended,
    Faulted,
    Passed,
}

// The bytes of the buffer. A line that is longer does not fit, so it is let go as it comes.
const SIZE: usize = 8192;

/// The bytes of the longest line that is given. A longer one is `Long`.
pub const LONGEST_LINE: usize = 4096;

/// A reader of lines. A line ends with byte 10, before which one byte 13 is part of the end; at the end of the input
/// a line without an end counts (this project).
#[derive(Drop)]
pub struct LineReader {
    buf: Vec<u8>,
    start: usize,
    end: usize,
    from: usize,
    to: usize,
    long: bool,
    stop: Stop,
    lines_left: u64,
    bytes_left: u64,
    limits: Limits,
    ghost size: { vec_len buf ≡ SIZE },
    ghost in_order: { start ≤ end },
    ghost in_buffer: { end ≤ SIZE },
    ghost line_in_order: { from ≤ to },
    ghost line_in_buffer: { to ≤ SIZE },
    ghost line_is_short: { to ≤ from + LONGEST_LINE },
    ghost long_is_line: { long ≡ true → 0 < lines_left },
}

impl LineReader {
    ghost use Rattle.line_io.specs.Reader.{Answers, HasCut, HasRead, IsFaulted, IsOpen, Reads, Settles, answered, came_line, held, limits_of, line_given, line_in, lines_in, lines_left, reads_left};

    /// A reader that has read nothing. Its buffer is the one memory that it takes.
    pub fn new(alloc: Global, limits: Limits) -> Result<LineReader, OpenFault>
        ensures limits { IfOk result (λ r. limits_of r ≡ limits) }
        ensures lines { IfOk result (λ r. lines_left r ≡ limits.lines) }
        ensures no_fault { IfOk result (λ r. IsFaulted r → ⊥) }
        ensures fresh { IfOk result (λ r. (left : Option (List ℕ)) → HasRead r left [] []) }
    {
        let mut buf = Vec::new(alloc);
        let Ok(()) = buf.resize(SIZE, 0) else {
            return Err(OpenFault::Memory);
        };
        Ok(LineReader {
            buf,
            start: 0,
            end: 0,
            from: 0,
            to: 0,
            long: false,
            stop: Stop::Open,
            lines_left: limits.lines,
            bytes_left: limits.bytes,
            limits,
        })
    }

    /// Reads on to the next line. After the end, a fault or too much input the answer stays, and nothing more is read.
    pub fn next<S: Source>(&mut self, source: &mut S) -> LineGot
        // Whatever was read before: what this call took, and the lines that have been given by now.
        ensures reads { (bytes : List ℕ) (given : List Line) → HasRead self.old (S.left source.old) bytes given
            → Reads (S.left source.old) (S.left source.new) (limits_of self.old) self.new bytes given result }

        // A fault is the source's, in this call or in the one that answered it first.
        ensures fault { result ≡ LineGot.Fault → Rose (S.faults source.old) (S.faults source.new) ⊎ IsFaulted self.old }
        ensures told { result ≢ LineGot.Fault → S.faults source.new ≡ S.faults source.old }
        ensures faulted { IsFaulted self.new → result ≡ LineGot.Fault }
        ensures later { S.faults source.old ≤ S.faults source.new }

        // The last answers stay, and nothing is read after them.
        ensures again { IfSome (answered self.old) (λ answer. (result ≡ answer) × (self.new ≡ self.old) × (source.new ≡ source.old)) }
        ensures settles { Settles result (answered self.new) }

        // What a loop over the lines counts by.
        ensures counted { lines_left self.new + lines_in result ≡ lines_left self.old }
        ensures limits { limits_of self.new ≡ limits_of self.old }
        ensures short { length (line_in self.new) ≤ LONGEST_LINE }
    {
        if let Some(answer) = self.answer() {
            return answer;
        }
        let mut looked = self.start;
        'reading: loop {
            if let Some(answer) = self.ready(looked) {
                return answer;
            }
            self.make_room();
            looked = self.end;
            match fill(&mut self.buf, self.end, source) {
                Got::Got(n) => self.count_in(n),
                Got::End => return self.last_line(),
                Got::Failed => {
                    self.stop = Stop::Faulted;
                    return LineGot::Fault;
                }
            }
        }
    }

    /// The text of the line that was given last, without its end.
    pub fn line(&self) -> &[u8]
        ensures line { result.now ≡ line_in self.now }
        ensures short { length result.now ≤ LONGEST_LINE }
    {
        let all = self.buf.as_slice();
        &all[self.from..self.to]
    }

    // The answer that the reader stays at.
    fn answer(&self) -> Option<LineGot>
        ensures { result ≡ answered self.now }
    {
        match self.stop {
            Stop::Open | Stop::Cut => None,
            Stop::Ended => Some(LineGot::End),
            Stop::Faulted => Some(LineGot::Fault),
            Stop::Passed => Some(LineGot::TooMuch),
        }
    }

    // The answer that the held bytes allow, where no line end stands before `looked`. Where bytes were cut off and no
    // whole line is held, too much has come.
    fn ready(&mut self, looked: usize) -> Option<LineGot>
        requires going { answered self.old ≡ None }
        requires behind { self.old.start ≤ looked }
        requires within { looked ≤ self.old.end }
        requires open { IsOpen (slice_range self.old.buf.items self.old.start looked) }
        ensures some { IfSome result (Answers self.old self.new) }
        ensures same { IfNone result (self.new ≡ self.old) }
        ensures open { IfNone result (IsOpen (held self.old)) }
        ensures going { IfNone result (self.old.stop ≡ Stop.Open) }
        ensures line { IfNone result (self.old.start < self.old.end → 0 < self.old.lines_left) }
    {
        if self.lines_left == 0 && self.start < self.end {
            self.stop = Stop::Passed;
            return Some(LineGot::TooMuch);
        }
        match end_at(&self.buf[looked..self.end]) {
            Some(i) => {
                let at = looked + i;
                let to = end_of_text(&self.buf, self.start, at);
                Some(self.give(self.start, to, at + 1))
            }
            None => match self.stop {
                Stop::Cut => {
                    self.stop = Stop::Passed;
                    Some(LineGot::TooMuch)
                }
                _ => None,
            },
        }
    }

    // Gives the bytes from `from` to `to` as a line; the next line begins at `next`.
    fn give(&mut self, from: usize, to: usize, next: usize) -> LineGot
        requires in_order { from ≤ to }
        requires within { to ≤ self.old.end }
        requires next_within { next ≤ self.old.end }
        requires line { 0 < self.old.lines_left }
        ensures line { came_line result (line_in self.new) ≡ line_given self.old.long (slice_range self.old.buf.items from to) ∷ [] }
        ensures one { lines_in result ≡ 1 }
        ensures buf { self.new.buf ≡ self.old.buf }
        ensures start { self.new.start ≡ next }
        ensures end { self.new.end ≡ self.old.end }
        ensures counted { self.new.lines_left + 1 ≡ self.old.lines_left }
        ensures bytes { self.new.bytes_left ≡ self.old.bytes_left }
        ensures long { self.new.long ≡ false }
        ensures stop { self.new.stop ≡ self.old.stop }
        ensures limits { self.new.limits ≡ self.old.limits }
    {
        let long = is_long(self.long, to - from);
        self.start = next;
        self.lines_left -= 1;
        self.long = false;
        if long {
            return LineGot::Long;
        }
        self.from = from;
        self.to = to;
        LineGot::Line
    }

    // Makes room at the buffer's end. A full buffer without a line end is let go.
    fn make_room(&mut self)
        requires open { IsOpen (held self.old) }
        requires line { self.old.start < self.old.end → 0 < self.old.lines_left }
        ensures room { self.new.end < SIZE }
        ensures open { IsOpen (held self.new) }
        ensures line { self.new.start < self.new.end → 0 < self.new.lines_left }
        ensures cuts { (bytes : List ℕ) (given : List Line) → HasCut self.old bytes given → HasCut self.new bytes given }
        ensures stop { self.new.stop ≡ self.old.stop }
        ensures lines { self.new.lines_left ≡ self.old.lines_left }
        ensures bytes { self.new.bytes_left ≡ self.old.bytes_left }
        ensures limits { self.new.limits ≡ self.old.limits }
    {
        if self.end < SIZE {
            return;
        }
        if self.start == 0 {
            self.long = true;
            self.end = 0;
            return;
        }
        move_down(&mut self.buf, self.start, self.end);
        self.end -= self.start;
        self.start = 0;
    }

    // Counts bytes that were read into the buffer, and cuts off what the limit does not allow.
    fn count_in(&mut self, n: usize)
        requires open { self.old.stop ≡ Stop.Open }
        requires some { 0 < n }
        requires fits { self.old.end + n ≤ SIZE }
        ensures cuts { (bytes : List ℕ) (given : List Line) → HasCut self.old bytes given
            → HasCut self.new (bytes ++ slice_range self.old.buf.items self.old.end (self.old.end + n)) given }
        ensures buf { self.new.buf ≡ self.old.buf }
        ensures start { self.new.start ≡ self.old.start }
        ensures end { self.old.end ≤ self.new.end }
        ensures going { answered self.new ≡ None }
        ensures fewer { reads_left self.new.stop self.new.bytes_left < reads_left self.old.stop self.old.bytes_left }
        ensures lines { self.new.lines_left ≡ self.old.lines_left }
        ensures limits { self.new.limits ≡ self.old.limits }
    {
        let n64 = n as u64;
        if n64 > self.bytes_left {
            self.end += self.bytes_left as usize;
            self.bytes_left = 0;
            self.stop = Stop::Cut;
        } else {
            self.end += n;
            self.bytes_left -= n64;
        }
    }

    // The input has ended: what is held is the last line, if there is any.
    fn last_line(&mut self) -> LineGot
        requires open { IsOpen (held self.old) }
        requires going { self.old.stop ≡ Stop.Open }
        requires line { self.old.start < self.old.end → 0 < self.old.lines_left }
        ensures reads { (left : Option (List ℕ)) (bytes : List ℕ) (given : List Line) → IsAtEnd left → HasCut self.old bytes given
            → HasRead self.new left bytes (given ++ came_line result (line_in self.new)) }
        ensures settles { Settles result (answered self.new) }
        ensures counted { lines_left self.new + lines_in result ≡ lines_left self.old }
        ensures limits { limits_of self.new ≡ limits_of self.old }
        ensures ended { self.new.stop ≡ Stop.Ended }
        ensures no_fault { result ≢ LineGot.Fault }
    {
        self.stop = Stop::Ended;
        if self.start == self.end && !self.long {
            return LineGot::End;
        }
        self.give(self.start, self.end, self.end)
    }
}

// The first line end in some bytes.
fn end_at(bytes: &[u8]) -> Option<usize>
    ensures { result ≡ position (λ b. b == 10) bytes.now }
{
    bytes.iter().position(|b| *b == b'\n')
}

// Where the text of a line ends whose byte 10 stands at `at`: before one byte 13, if it stands directly before.
fn end_of_text(buf: &[u8], start: usize, at: usize) -> usize
    requires in_order { start ≤ at }
    requires within { at < length buf.now }
    ensures in_order { start ≤ result }
    ensures before { result ≤ at }
    ensures text { slice_range buf.now start result ≡ strip_carriage_return (slice_range buf.now start at) }
{
    if start < at && buf[at - 1] == b'\r' {
        return at - 1;
    }
    at
}

// Whether a line is too long, of which some bytes may have gone before.
fn is_long(long: bool, len: usize) -> bool
    ensures { result ≡ (long || nat_lt LONGEST_LINE len) }
{
    long || len > LONGEST_LINE
}

// Moves the bytes from `start` to `end` to the buffer's front.
fn move_down(buf: &mut [u8], start: usize, end: usize)
    requires in_order { start ≤ end }
    requires within { end ≤ length buf.old }
    ensures moved { take (end - start) buf.new ≡ slice_range buf.old start end }
{
    buf.copy_within(start..end, 0);
}

// Reads once into the buffer from `end` on.
fn fill<S: Source>(buf: &mut [u8], end: usize, source: &mut S) -> Got
    requires { end < length buf.old }
    ensures count { CountsWithin (length buf.new - end) result }
    ensures front { take end buf.new ≡ take end buf.old }
    ensures bytes { Gave (S.left source.old) (S.left source.new) (came result (drop end buf.new)) }
    ensures end { EndsAt (S.left source.new) result }
    ensures later { S.faults source.old ≤ S.faults source.new }
    ensures failed { result ≡ Got.Failed → Rose (S.faults source.old) (S.faults source.new) }
    ensures told { result ≢ Got.Failed → S.faults source.new ≡ S.faults source.old }
{
    source.read(&mut buf[end..])
}
