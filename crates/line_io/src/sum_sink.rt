// A sink that keeps numbers in place of the bytes.
ghost use Rattle.std.specs.Prelude.{◌≡◌, ℕ, ◌+◌, ◌<◌, ◌≤◌, ◌==◌, if◌then◌else◌, Some, List, [], ◌∷◌, ◌++◌, length};
ghost use Rattle.std.specs.Option.{ForSome};
ghost use Rattle.line_io.specs.Lines.{is_end};
ghost use Rattle.line_io.specs.declared.sum_sink.TheConstants.{ERROR_WORD};
ghost use Rattle.line_io.specs.Summary.{completes, further, summary_of};

use crate::sink::{Sink, Took};

/// The numbers of the bytes that a sink took. `lines` counts bytes 10, `errors` lines that begin with `error `, and
/// `bytes` all bytes, each modulo 2^64. `sum` begins at 7, and becomes `31 * sum + byte` modulo 2^32 at each byte.
#[derive(Clone, Copy)]
pub struct Summary {
    pub lines: u64,
    pub errors: u64,
    pub bytes: u64,
    pub sum: u64,
}

// What a line is that counts as an error.
const ERROR_WORD: [u8; 6] = *b"error ";

/// A sink that keeps no bytes, only their numbers, and of the line begun how much of `error ` it has. It takes all
/// bytes at once, and never fails.
#[derive(Drop)]
pub struct SumSink {
    lines: u64,
    errors: u64,
    bytes: u64,
    sum: u32,
    begun: Option<usize>,
    ghost in_word: { ForSome begun (λ n. n < length ERROR_WORD) },
}

impl SumSink {
    ghost use Rattle.line_io.specs.SumSink.{SumsUp};

    /// A sink that has taken nothing.
    pub fn new() -> SumSink
        ensures { ⟦<SumSink as Sink>⟧.wrote result [] }
    {
        SumSink {
            lines: 0,
            errors: 0,
            bytes: 0,
            sum: 7,
            begun: Some(0),
        }
    }

    /// The numbers of all that was taken.
    pub fn summary(&self) -> Summary
        ensures { (taken : List ℕ) → ⟦<SumSink as Sink>⟧.wrote self.now taken → result ≡ summary_of taken }
    {
        Summary {
            lines: self.lines,
            errors: self.errors,
            bytes: self.bytes,
            sum: u64::from(self.sum),
        }
    }

    // Counts one byte.
    fn add(&mut self, byte: u8)
        ensures { (taken : List ℕ) → SumsUp self.old taken → SumsUp self.new (taken ++ byte ∷ []) }
    {
        let completed = completes(self.begun, byte);
        self.lines = self.lines.wrapping_add(one_if(byte == b'\n'));
        self.errors = self.errors.wrapping_add(one_if(completed));
        self.bytes = self.bytes.wrapping_add(1);
        self.sum = self.sum.wrapping_mul(31).wrapping_add(u32::from(byte));
        self.begun = begun_after(self.begun, byte);
    }
}

impl Sink for SumSink {
    ghost use Rattle.line_io.specs.SumSink.{SumsUp};

    ghost wrote = { SumsUp };

    ghost faults = { λ _. 0 };

    fn write(&mut self, bytes: &[u8]) -> Took {
        for byte in bytes {
            self.add(*byte);
        }
        Took::Took(bytes.len())
    }
}

// 1 where a test holds.
fn one_if(test: bool) -> u64
    ensures { result ≡ (if test then 1 else 0) }
{
    u64::from(test)
}

// Whether a line that has so much of `error ` has all of it with this byte.
fn completes(begun: Option<usize>, byte: u8) -> bool
    requires { ForSome begun (λ n. n < length ERROR_WORD) }
    ensures { result ≡ completes ERROR_WORD begun byte }
{
    match begun {
        Some(n) => n + 1 == ERROR_WORD.len() && byte == ERROR_WORD[n],
        None => false,
    }
}

// How much of `error ` the line has that stands begun after this byte.
fn begun_after(begun: Option<usize>, byte: u8) -> Option<usize>
    requires { ForSome begun (λ n. n < length ERROR_WORD) }
    ensures value { result ≡ (if is_end byte then Some 0 else further ERROR_WORD begun byte) }
    ensures in_word { ForSome result (λ n. n < length ERROR_WORD) }
{
    if byte == b'\n' {
        return Some(0);
    }
    let n = begun?;
    if n + 1 < ERROR_WORD.len() && byte == ERROR_WORD[n] {
        return Some(n + 1);
    }
    None
}
