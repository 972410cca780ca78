// The script that is made from a number.
ghost use Rattle.std.specs.Prelude.{◌≡◌, ◌+◌, ◌≤◌, ◌⊎◌, length, true};
ghost use Rattle.plain_machine.specs.State.{State};
ghost use Rattle.space_api.specs.Calls.{most_calls};
ghost use Rattle.command_line.specs.Values.{is_arena};
ghost use Rattle.engine.specs.Acts.{StandsWith};
ghost use Rattle.engine.specs.Serving.{TellsWrite};
ghost use Rattle.machine_run.specs.Made.{IsMade, Made};
ghost use Rattle.machine_run.specs.Contract.{IfBegun, StoreStands};

use crate::opening::first_machine;
use crate::store::Store;
use crate::summary::put_summary;
use arrayvec::ArrayVec;
use engine::{Machine, Status, step};
use line_io::{Sink, SumSink, Summary};
use made_script::MadeScript;
use space_api::Space;
use std::alloc::Global;
use store_image::Imaged;

/// Does the lines of the script of a number, one at a time, and sums up their replies. No line of it ends a script, and
/// no reply fails to be summed up, so what a line comes to needs no look.
fn do_made<P: Space>(m: &mut Machine<P>, number: u64) -> Summary
    requires calls { P.calls m.old.space + 100000 ≤ most_calls }
    requires named { P.named m.old.space ≤ length m.old.names }
    ensures made { (first : State) → StandsWith (P.stands m.old.space) m.old.names first
        → IsMade (P.words m.old.space) first number
        (StandsWith (P.stands m.new.space) m.new.names) result }
    ensures words { P.words m.new.space ≡ P.words m.old.space }
    ensures named { P.named m.new.space ≤ length m.new.names }
{
    let mut script = MadeScript::new(number);
    let mut sums = SumSink::new();
    let mut line = ArrayVec::new();
    while script.next_line(&mut line) {
        let _ = step(m, line.as_slice(), &mut sums);
    }
    sums.summary()
}

/// Does the script of a number by a new machine, leaves the machine in `store`, and writes the summary of the replies.
pub(crate) fn run_made<K: Sink>(
    alloc: Global,
    arena: u64,
    number: u64,
    store: &mut Store,
    sink: &mut K,
) -> Status
    requires arena { is_arena arena ≡ true }
    requires vacant { store.old ≡ Store.Vacant }
    ensures ends { (result ≡ Status.Done) ⊎ (result ≡ Status.WriteFault) ⊎ (result ≡ Status.Memory) }
    ensures made { IfBegun result
        (Made arena number
        (record { wrote = K.wrote; faults = K.faults; before = sink.old; after = sink.new })
        (StoreStands arena store.new) result)
        ((store.new ≡ Store.Vacant) × (sink.new ≡ sink.old)) }
    ensures write_told { TellsWrite result (K.faults sink.old) (K.faults sink.new) }
{
    let Some(mut machine) = first_machine(alloc, arena) else {
        return Status::Memory;
    };
    let numbers = do_made(&mut machine, number);
    machine.space.images_stand();
    // The text of `counts` goes by names, none of which stands twice.
    machine.names.sound();
    *store = Store::One(machine);
    put_summary(&numbers, sink)
}
