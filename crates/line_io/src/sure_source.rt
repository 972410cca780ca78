// A source over a slice, which never fails.
ghost use Rattle.std.specs.Prelude.{◌≡◌, ◌<◌, ◌≤◌, ℕ, min, length, drop, Some};
ghost use Rattle.line_io.specs.Faults.{Rose};
ghost use Rattle.line_io.specs.Source.{CountsWithin, EndsAt, Gave, came};
ghost use Rattle.line_io.specs.declared.source.Got.{Got};

use crate::copies::put_at;
use crate::source::{Got, Source};

/// A source of the bytes of a slice. Its count of faults is the constant 0.
#[derive(Drop)]
pub struct SureSource<'a> {
    bytes: &'a [u8],
}

impl<'a> SureSource<'a> {
    /// A source of all the bytes of the slice.
    pub fn new(bytes: &'a [u8]) -> SureSource<'a>
        ensures { ⟦<SureSource<'a> as Source>⟧.left result ≡ Some bytes.now }
    {
        SureSource { bytes }
    }
}

impl<'a> Source for SureSource<'a> {
    ghost left = { λ s. Some s.bytes.now };

    ghost faults = { λ _. 0 };

    fn read(&mut self, buf: &mut [u8]) -> Got {
        let n = self.bytes.len().min(buf.len());
        if n == 0 {
            return Got::End;
        }
        put_at(buf, 0, &self.bytes[..n]);
        self.bytes = &self.bytes[n..];
        Got::Got(n)
    }
}
