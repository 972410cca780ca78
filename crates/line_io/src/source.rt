// Where bytes come from.
ghost use Rattle.std.specs.Prelude.{◌≡◌, ◌≢◌, ℕ, ◌<◌, ◌≤◌, List, length, Option};
ghost use Rattle.line_io.specs.declared.source.Got.{Got};
ghost use Rattle.line_io.specs.Faults.{Rose};
ghost use Rattle.line_io.specs.Source.{CountsWithin, EndsAt, Gave, came};

/// What a read brought: a number of bytes at the front of the buffer, the end, or a fault.
#[derive(Clone, Copy)]
pub enum Got {
    Got(usize),
    End,
    Failed,
}

/// A source of bytes (this project).
pub trait Source {
    /// The bytes that are still to come, where the source tells them.
    ghost left: { Self → Option (List ℕ) };

    /// How often reading has failed; it never falls.
    ghost faults: { Self → ℕ };

    /// Reads some bytes, at least one, into the front of `buf`.
    fn read(&mut self, buf: &mut [u8]) -> Got
        requires { 0 < length buf.old }
        ensures count { CountsWithin (length buf.new) result }
        ensures bytes { Gave (left self.old) (left self.new) (came result buf.new) }
        ensures end { EndsAt (left self.new) result }
        ensures later { faults self.old ≤ faults self.new }
        ensures failed { result ≡ Got.Failed → Rose (faults self.old) (faults self.new) }
        ensures told { result ≢ Got.Failed → faults self.new ≡ faults self.old };
}
