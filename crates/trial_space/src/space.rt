// The space.
ghost use Rattle.std.specs.Prelude.{◌≡◌, get_or, length};
ghost use Rattle.plain_term.specs.declared.item.Item.TheVariants.{Nil};
ghost use Rattle.script_grammar.specs.Names.{IsRegister};
ghost use Rattle.script_grammar.specs.Grammar.{MayReceive};
ghost use Rattle.plain_machine.specs.State.{first_state};
ghost use Rattle.plain_machine.specs.Tightness.{pid_number, receiver};
ghost use Rattle.trial_space.specs.Items.{NamesRegister, alone, one_process, put_item};

use crate::comparing::item_order;
use crate::printing::print_item;
use crate::weight::{filled_words, flat_alone, many_words, weigh};
use atom_names::AtomNames;
use line_io::{Sink, SinkFault, put_all};
use plain_machine::{
    COUNTED_COST, Depth, MESSAGE_COST, MOST_ARITY, MOST_BYTE, MOST_FILL, MOST_PLACES, Measure,
    PLACE_COST, PROCESS_COST, Pick, Refusal, Reg, Shape, To,
};
use plain_term::Item;
use script_grammar::REGISTERS;
use space_api::{Seat, Space, Stop};
use std::cmp::Ordering;

// How many registers the process has.
const SLOTS: usize = REGISTERS as usize;

/// Process 1 alone, with one item in each register, and no word of memory: what asks for words is refused.
#[derive(Drop)]
pub struct TrialSpace {
    alive: bool,
    registers: [Item; SLOTS],
    named: u64,
}

impl TrialSpace {
    /// A space in which process 1 lives, with nil in each register.
    pub fn start() -> TrialSpace
        ensures first { ⟦<TrialSpace as Space>⟧.stands result first_state }
        ensures calls { ⟦<TrialSpace as Space>⟧.calls result ≡ 0 }
        ensures named { ⟦<TrialSpace as Space>⟧.named result ≡ 0 }
    {
        TrialSpace {
            alive: true,
            registers: [Item::Nil; SLOTS],
            named: 0,
        }
    }
}

// The process that a pid names; no other item names one.
fn number_of(item: Item) -> Option<u64>
    ensures { result ≡ pid_number (alone item) }
{
    match item {
        Item::Pid(n) => Some(n),
        _ => None,
    }
}

// What the registers hold.
impl TrialSpace {
    fn item(&self, r: Reg) -> Item
        requires { IsRegister r }
        ensures { result ≡ get_or self.now.registers r.0 Nil }
    {
        self.registers[r.0 as usize]
    }

    // The item of the register that this one names, or itself.
    fn meant(&self, item: Item) -> Item
        requires { NamesRegister item }
        ensures { result ≡ put_item self.now.registers item }
    {
        match item {
            Item::Held(r) => self.item(Reg(r)),
            _ => item,
        }
    }

    // The number that a message to this receiver is sent to.
    fn receiver(&self, to: To) -> Option<u64>
        requires { MayReceive to }
        ensures { result ≡ receiver to (one_process self.now.registers) }
    {
        match to {
            To::Number(n) => Some(n),
            To::Held(r) => number_of(self.item(r)),
        }
    }
}

impl Space for TrialSpace {
    ghost use Rattle.std.specs.Prelude.{codes};
    ghost use Rattle.space_api.specs.Calls.{Properly};
    ghost use Rattle.trial_space.specs.Items.{TrialSits, TrialStands};

    ghost stands = { λ b s. Properly (TrialStands b.alive b.registers) s };

    ghost sits = { λ b seat. TrialSits b.alive seat };

    ghost words = { λ b. 0 };

    ghost named = { λ b. b.named };

    ghost calls = { λ b. 0 };

    ghost text = { λ b names c. codes "bins [] funs []" };

    fn find(&self, pid: u64) -> Option<Seat> {
        if self.alive && pid == 1 {
            return Some(Seat { pid, row: 0 });
        }
        None
    }

    fn live_after(&self, pid: u64) -> Option<u64> {
        if pid > 0 {
            return None;
        }
        if self.alive {
            return Some(1);
        }
        None
    }

    fn spawn(&mut self) -> Result<u64, Refusal> {
        Err(Refusal::NoSpace(PROCESS_COST))
    }

    fn exit(&mut self, seat: Seat) {
        self.alive = false;
    }

    fn build(
        &mut self,
        names: &AtomNames,
        seat: Seat,
        r: Reg,
        code: &[Item],
    ) -> Result<(), Refusal> {
        let weight = weigh(code);
        if weight > 1 {
            return Err(Refusal::NoSpace(weight - 1));
        }
        self.registers[r.0 as usize] = self.meant(code[0]);
        self.named = names.count();
        Ok(())
    }

    fn pick(
        &mut self,
        names: &AtomNames,
        seat: Seat,
        r: Reg,
        s: Reg,
        how: Pick,
    ) -> Result<(), Refusal> {
        Err(Refusal::BadArg)
    }

    fn map_put(
        &mut self,
        names: &AtomNames,
        seat: Seat,
        r: Reg,
        s: Reg,
        k: Reg,
        v: Reg,
    ) -> Result<(), Refusal> {
        Err(Refusal::BadArg)
    }

    fn fill(&mut self, seat: Seat, r: Reg, len: u64, byte: u64) -> Result<(), Refusal> {
        if len > MOST_FILL {
            return Err(Refusal::BadArg);
        }
        if byte > MOST_BYTE {
            return Err(Refusal::BadArg);
        }
        Err(Refusal::NoSpace(filled_words(len)))
    }

    fn make_fun(
        &mut self,
        seat: Seat,
        r: Reg,
        name: u64,
        arity: u64,
        env: &[Item],
    ) -> Result<(), Refusal> {
        if arity > MOST_ARITY {
            return Err(Refusal::BadArg);
        }
        Err(Refusal::NoSpace(COUNTED_COST + env.len() as u64))
    }

    fn make_ref(&mut self, seat: Seat, r: Reg) -> Result<(), Refusal> {
        Err(Refusal::NoSpace(3))
    }

    fn repeat(&mut self, seat: Seat, r: Reg, shape: Shape, n: u64, s: Reg) -> Result<(), Refusal> {
        if n > MOST_PLACES {
            return Err(Refusal::BadArg);
        }
        let words = many_words(shape, n);
        if words == 0 {
            self.registers[r.0 as usize] = Item::Nil;
            return Ok(());
        }
        Err(Refusal::NoSpace(words))
    }

    fn own_pid(&mut self, seat: Seat, r: Reg) {
        self.registers[r.0 as usize] = Item::Pid(seat.pid);
    }

    fn push(&mut self, seat: Seat, s: Reg) -> Result<(), Refusal> {
        Err(Refusal::NoSpace(PLACE_COST))
    }

    fn pop(&mut self, seat: Seat, r: Reg) -> Result<(), Refusal> {
        Err(Refusal::Empty)
    }

    fn send(&mut self, seat: Seat, s: Reg, to: To) -> Result<(), Refusal> {
        let Some(n) = self.receiver(to) else {
            return Err(Refusal::BadArg);
        };
        if n == seat.pid {
            return Err(Refusal::NoSpace(MESSAGE_COST + flat_alone(self.item(s))));
        }
        Ok(())
    }

    fn receive(&mut self, seat: Seat, r: Reg) -> Result<(), Refusal> {
        Err(Refusal::Empty)
    }

    fn collect(&mut self, seat: Seat, depth: Depth) {}

    fn sweep_all(&mut self) {}

    fn measure(&self, seat: Seat, s: Reg) -> Result<Measure, Refusal> {
        let flat = flat_alone(self.item(s));
        Ok(Measure { nodes: 1, flat })
    }

    fn compare(&self, names: &AtomNames, seat: Seat, a: Reg, b: Reg) -> Result<Ordering, Refusal> {
        Ok(item_order(names, self.item(a), self.item(b)))
    }

    fn print<K: Sink>(
        &self,
        names: &AtomNames,
        seat: Seat,
        s: Reg,
        sink: &mut K,
    ) -> Result<(), Stop> {
        match print_item(names, self.item(s), sink) {
            Ok(()) => Ok(()),
            Err(_) => Err(Stop::Fault),
        }
    }

    fn queue<K: Sink>(&self, names: &AtomNames, seat: Seat, sink: &mut K) -> Result<(), SinkFault> {
        put_all(sink, b"[]")
    }

    fn counts<K: Sink>(&self, names: &AtomNames, sink: &mut K) -> Result<(), SinkFault> {
        put_all(sink, b"bins [] funs []")
    }
}
