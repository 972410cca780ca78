// The rows of processes.
ghost use Rattle.std.specs.Prelude.{◌≡◌, replicate};

use numbered_rows::{Boxed, Numbered};

/// One process: its number, the words of its registers, the place of the last thing on its stack, how many lie there, the
/// place of the first message that waits and that of the last, how many wait, and how many references it has made.
#[derive(Clone, Copy)]
pub struct Proc {
    pub number: u64,
    pub regs: [u64; 16],
    pub stack: u64,
    pub depth: u64,
    pub queue: u64,
    pub last: u64,
    pub waiting: u64,
    pub refs: u64,
}

/// A process's row in a box of its own.
pub type Row = Boxed<Proc>;

impl Numbered for Proc {
    ghost number_of = { λ p. p.number };

    fn number(&self) -> u64 {
        self.number
    }
}

/// A process with nil in each register, nothing on its stack and no message.
pub fn fresh(number: u64) -> Proc
    ensures number { result.number ≡ number }
    ensures regs { result.regs ≡ replicate 16 59 }
    ensures depth { result.depth ≡ 0 }
    ensures waiting { result.waiting ≡ 0 }
    ensures refs { result.refs ≡ 0 }
{
    Proc {
        number,
        regs: [term_tags::nil(); 16],
        stack: 0,
        depth: 0,
        queue: 0,
        last: 0,
        waiting: 0,
        refs: 0,
    }
}
