// A source over memory, which gives small pieces and fails where it is told to.
ghost use Rattle.std.specs.Prelude.{◌≡◌, ◌≢◌, ◌↔◌, ℕ, ◌+◌, ◌-◌, ◌<◌, ◌≤◌, ◌^◌, min, List, length, drop, Option, Some, Contains, IfOk, vec_len};
ghost use Rattle.line_io.specs.Faults.{Rose, raised};
ghost use Rattle.line_io.specs.Source.{CountsRead, CountsWithin, EndsAt, Gave, came};
ghost use Rattle.line_io.specs.declared.source.Got.{Got};

use crate::copies::copy_out;
use crate::fault::OpenFault;
use crate::source::{Got, Source};
use std::alloc::Global;

/// A source for tests. It gives at most `piece` bytes at once, and fails at the calls that are numbered in `failing`.
#[derive(Drop)]
pub struct MemSource {
    bytes: Vec<u8>,
    at: usize,
    piece: usize,
    failing: Vec<u64>,
    calls: u64,
    faults: u64,
    ghost within: { at ≤ vec_len bytes },
    ghost gives: { 0 < piece },
}

impl MemSource {
    ghost use Rattle.line_io.specs.Memory.{bytes_left, next_read, read_piece, failing_reads};

    /// A source of a copy of `bytes`. The numbers in `failing` count calls from 1.
    pub fn new(
        alloc: Global,
        bytes: &[u8],
        piece: usize,
        failing: &[u64],
    ) -> Result<MemSource, OpenFault>
        requires { 0 < piece }
        ensures bytes { IfOk result (λ s. bytes_left s ≡ bytes.now) }
        ensures piece { IfOk result (λ s. read_piece s ≡ piece) }
        ensures failing { IfOk result (λ s. failing_reads s ≡ failing.now) }
        ensures first { IfOk result (λ s. next_read s ≡ 1) }
        ensures faults { IfOk result (λ s. ⟦<MemSource as Source>⟧.faults s ≡ 0) }
    {
        let Ok(bytes) = Vec::from_slice(alloc, bytes) else {
            return Err(OpenFault::Memory);
        };
        let Ok(failing) = Vec::from_slice(alloc, failing) else {
            return Err(OpenFault::Memory);
        };
        Ok(MemSource {
            bytes,
            at: 0,
            piece,
            failing,
            calls: 0,
            faults: 0,
        })
    }
}

impl Source for MemSource {
    ghost use Rattle.line_io.specs.Memory.{bytes_left, next_read, read_piece, failing_reads, GivesNext};

    ghost left = { λ s. Some (bytes_left s) };

    ghost faults = { λ s. s.faults };

    fn read(&mut self, buf: &mut [u8]) -> Got
        requires { 0 < length buf.old }
        ensures count { CountsWithin (length buf.new) result }
        ensures bytes { Gave (Some (bytes_left self.old)) (Some (bytes_left self.new)) (came result buf.new) }
        ensures end { EndsAt (Some (bytes_left self.new)) result }
        ensures later { self.old.faults ≤ self.new.faults }
        ensures failed { result ≡ Got.Failed → Rose self.old.faults self.new.faults }
        ensures told { result ≢ Got.Failed → self.new.faults ≡ self.old.faults }

        // Which answer comes, and how many bytes.
        ensures exact { GivesNext self.old (length buf.old) result }
        ensures faults { CountsRead result self.old.faults self.new.faults }
        ensures calls { self.new.calls ≡ next_read self.old }
        ensures piece { read_piece self.new ≡ read_piece self.old }
        ensures failing { failing_reads self.new ≡ failing_reads self.old }
    {
        self.calls = self.calls.saturating_add(1);
        if self.failing.contains(&self.calls) {
            self.faults = self.faults.saturating_add(1);
            return Got::Failed;
        }
        let n = copy_out(&self.bytes, self.at, self.piece, buf);
        if n == 0 {
            return Got::End;
        }
        self.at += n;
        Got::Got(n)
    }
}
