// The space that verbs over a memory are.
use crate::verbs::Verbs;
use atom_names::AtomNames;
use heaps_api::Heaps;
use line_io::{Sink, SinkFault};
use plain_machine::{Depth, Measure, Pick, Refusal, Reg, Shape, To};
use plain_term::Item;
use space_api::{Seat, Space, Stop};
use std::cmp::Ordering;
use std::marker::Model;
use store_image::Imaged;

/// A space over a memory of processes.
#[derive(Drop)]
pub struct Over<H: Heaps> {
    verbs: Verbs<H>,
}

impl<H: Heaps> Model for Over<H> {
    ghost use Rattle.process_verbs.specs.declared.verbs.Verbs.{Verbs};
    ghost use Rattle.process_verbs.specs.Verbs.{Holds};

    ghost Value = { Verbs H };

    ghost view = { λ a. a.verbs };

    ghost invariant = { λ a. Holds H.meaning a.verbs };
}

impl<H: Heaps> Over<H> {
    ghost use Rattle.std.specs.Prelude.{◌≡◌};
    ghost use Rattle.process_verbs.specs.Verbs.{Holds};

    /// The space of verbs that stand for a state.
    pub fn over(verbs: Verbs<H>) -> Over<H>
        requires holds { Holds H.meaning verbs }
        ensures { result ≡ verbs }
    {
        Over { verbs }
    }
}

impl<H: Heaps> Space for Over<H> {
    ghost use Rattle.std.specs.Prelude.{List};
    ghost use Rattle.space_api.specs.Calls.{Properly};
    ghost use Rattle.process_verbs.specs.declared.verbs.Verbs.{Verbs};
    ghost use Rattle.process_verbs.specs.Verbs.{Sits, VerbsStand, memory_words};
    ghost use Rattle.process_verbs.specs.Listing.{command_text};

    ghost stands = { λ b s. Properly (VerbsStand H.meaning b) s };

    ghost sits = { λ b seat. Sits H.meaning b seat };

    ghost words = { λ b. memory_words H.meaning b };

    ghost named = { λ b. b.named };

    ghost calls = { λ b. b.calls };

    ghost text = { λ b names c. command_text H.meaning b names c };

    fn find(&self, pid: u64) -> Option<Seat> {
        let verbs = &self.verbs;
        match verbs.heaps.find(pid) {
            Some(row) => Some(Seat { pid, row }),
            None => None,
        }
    }

    fn live_after(&self, pid: u64) -> Option<u64> {
        let verbs = &self.verbs;
        let above = verbs.heaps.first_above(pid);
        if above < verbs.heaps.count() {
            Some(verbs.heaps.number(above))
        } else {
            None
        }
    }

    fn spawn(&mut self) -> Result<u64, Refusal> {
        self.verbs.spawn()
    }

    fn exit(&mut self, seat: Seat) {
        self.verbs.exit(seat)
    }

    fn build(
        &mut self,
        names: &AtomNames,
        seat: Seat,
        r: Reg,
        code: &[Item],
    ) -> Result<(), Refusal> {
        self.verbs.build(names, seat, r, code)
    }

    fn pick(
        &mut self,
        names: &AtomNames,
        seat: Seat,
        r: Reg,
        s: Reg,
        how: Pick,
    ) -> Result<(), Refusal> {
        match how {
            Pick::Part(offset, len) => self.verbs.cut(seat, r, s, offset, len),
            _ => self.verbs.pick(names, seat, r, s, how),
        }
    }

    fn map_put(
        &mut self,
        names: &AtomNames,
        seat: Seat,
        r: Reg,
        s: Reg,
        k: Reg,
        v: Reg,
    ) -> Result<(), Refusal> {
        self.verbs.map_put(names, seat, r, s, k, v)
    }

    fn repeat(&mut self, seat: Seat, r: Reg, shape: Shape, n: u64, s: Reg) -> Result<(), Refusal> {
        self.verbs.repeat(seat, r, shape, n, s)
    }

    fn fill(&mut self, seat: Seat, r: Reg, len: u64, byte: u64) -> Result<(), Refusal> {
        self.verbs.fill(seat, r, len, byte)
    }

    fn make_fun(
        &mut self,
        seat: Seat,
        r: Reg,
        name: u64,
        arity: u64,
        env: &[Item],
    ) -> Result<(), Refusal> {
        self.verbs.make_fun(seat, r, name, arity, env)
    }

    fn make_ref(&mut self, seat: Seat, r: Reg) -> Result<(), Refusal> {
        self.verbs.make_ref(seat, r)
    }

    fn own_pid(&mut self, seat: Seat, r: Reg) {
        self.verbs.own_pid(seat, r)
    }

    fn push(&mut self, seat: Seat, s: Reg) -> Result<(), Refusal> {
        self.verbs.push(seat, s)
    }

    fn pop(&mut self, seat: Seat, r: Reg) -> Result<(), Refusal> {
        self.verbs.pop(seat, r)
    }

    fn send(&mut self, seat: Seat, s: Reg, to: To) -> Result<(), Refusal> {
        self.verbs.send(seat, s, to)
    }

    fn receive(&mut self, seat: Seat, r: Reg) -> Result<(), Refusal> {
        self.verbs.receive(seat, r)
    }

    fn collect(&mut self, seat: Seat, depth: Depth) {
        self.verbs.collect(seat, depth)
    }

    fn sweep_all(&mut self) {
        self.verbs.sweep_all()
    }

    fn measure(&self, seat: Seat, s: Reg) -> Result<Measure, Refusal> {
        self.verbs.measure(seat, s)
    }

    fn compare(&self, names: &AtomNames, seat: Seat, a: Reg, b: Reg) -> Result<Ordering, Refusal> {
        self.verbs.compare(names, seat, a, b)
    }

    fn print<K: Sink>(
        &self,
        names: &AtomNames,
        seat: Seat,
        s: Reg,
        sink: &mut K,
    ) -> Result<(), Stop> {
        self.verbs.print(names, seat, s, sink)
    }

    fn queue<K: Sink>(&self, names: &AtomNames, seat: Seat, sink: &mut K) -> Result<(), SinkFault> {
        self.verbs.queue(names, seat, sink)
    }

    fn counts<K: Sink>(&self, names: &AtomNames, sink: &mut K) -> Result<(), SinkFault> {
        let verbs = &self.verbs;
        names.sound();
        verbs.heaps.images_stand();
        verbs.counts(names, sink)
    }
}

impl<H: Heaps> Imaged for Over<H> {
    ghost use Rattle.process_verbs.specs.Listing.{image};

    ghost image = { λ b. image H.meaning b };

    fn images_stand(&self) {
        let verbs = &self.verbs;
        verbs.heaps.images_stand();
    }
}
