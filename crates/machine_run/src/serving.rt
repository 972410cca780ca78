// The script that is read.
ghost use Rattle.std.specs.Prelude.{◌≡◌, ◌≢◌, true};
ghost use Rattle.command_line.specs.Values.{is_arena};
ghost use Rattle.engine.specs.Serving.{Served, TellsRead, TellsWrite};
ghost use Rattle.machine_run.specs.Contract.{IfBegun, left_in, rules_of};

use crate::opening::first_machine;
use crate::store::Store;
use engine::{Status, serve};
use line_io::{Limits, LineReader, Sink, Source};
use std::alloc::Global;
use store_image::Imaged;

/// How many lines and bytes a script may have (this project).
pub const LIMITS: Limits = Limits {
    lines: 1 << 32,
    bytes: 1 << 48,
};

/// Serves the script of `source` by a new machine, writes its replies to `sink`, and leaves the machine in `store`.
pub(crate) fn run_read<S: Source, K: Sink>(
    alloc: Global,
    arena: u64,
    store: &mut Store,
    source: &mut S,
    sink: &mut K,
) -> Status
    requires arena { is_arena arena ≡ true }
    requires vacant { store.old ≡ Store.Vacant }
    ensures begins { result ≢ Status.Usage }
    ensures served { IfBegun result
        (Served (rules_of arena)
        (record { before = S.left source.old; after = S.left source.new })
        (record { wrote = K.wrote; faults = K.faults; before = sink.old; after = sink.new })
        (left_in arena store.new) result)
        ((store.new ≡ Store.Vacant) × (source.new ≡ source.old) × (sink.new ≡ sink.old)) }
    ensures read_told { TellsRead result (S.faults source.old) (S.faults source.new) }
    ensures write_told { TellsWrite result (K.faults sink.old) (K.faults sink.new) }
{
    if let Ok(mut reader) = LineReader::new(alloc, LIMITS)
        && let Some(mut machine) = first_machine(alloc, arena)
    {
        let status = serve(&mut machine, &mut reader, source, sink);
        machine.space.images_stand();
        // The text of `counts` goes by names, none of which stands twice.
        machine.names.sound();
        *store = Store::One(machine);
        status
    } else {
        Status::Memory
    }
}
