// What the words of a command line ask for, done over any source and sink.
ghost use Rattle.std.specs.Prelude.{◌≡◌, ◌≢◌, ◌⊎◌, map, true, None};
ghost use Rattle.line_io.specs.Faults.{Rose};
ghost use Rattle.command_line.specs.Words.{asks};
ghost use Rattle.engine.specs.Serving.{TellsRead, TellsWrite};
ghost use Rattle.command_line.specs.Values.{is_arena};
ghost use Rattle.machine_run.specs.Contract.{IfBegun, IsComplete, Ran, RunBy, refused_by};

use crate::made::run_made;
use crate::serving::run_read;
use crate::store::Store;
use command_line::{Options, Refusal, read_options};
use engine::Status;
use line_io::{Sink, Source};
use std::alloc::Global;

/// The status where the words of the command line give no options.
fn refused(refusal: Refusal) -> Status
    ensures { result ≡ refused_by refusal }
{
    match refusal {
        Refusal::Usage => Status::Usage,
        Refusal::Memory => Status::Memory,
    }
}

/// Does what the options ask for.
fn run_by<S: Source, K: Sink>(
    alloc: Global,
    options: Options,
    store: &mut Store,
    source: &mut S,
    sink: &mut K,
) -> Status
    requires arena { is_arena options.arena ≡ true }
    requires vacant { store.old ≡ Store.Vacant }
    ensures begins { result ≢ Status.Usage }
    ensures ran { IfBegun result
        (RunBy options (source.new ≡ source.old)
        (record { before = S.left source.old; after = S.left source.new })
        (record { wrote = K.wrote; faults = K.faults; before = sink.old; after = sink.new }) store.new result)
        ((store.new ≡ Store.Vacant) × (source.new ≡ source.old) × (sink.new ≡ sink.old)) }
    ensures read_told { TellsRead result (S.faults source.old) (S.faults source.new) }
    ensures write_told { TellsWrite result (K.faults sink.old) (K.faults sink.new) }
{
    match options.made_from {
        None => run_read(alloc, options.arena, store, source, sink),
        Some(number) => run_made(alloc, options.arena, number, store, sink),
    }
}

/// Does what the words of the command line ask for, and leaves the machine in `store`: serves the script of `source`
/// and writes its replies to `sink`, or makes a script from a number and writes the summary of its replies.
///
/// `words` begin with the program's name. What the store held is dropped. All memory is taken before the first line,
/// and only then `Memory` can come. After a fault of the sink the last line read is part of the state.
pub fn run<S: Source, K: Sink>(
    alloc: Global,
    words: &[&str],
    store: &mut Store,
    source: &mut S,
    sink: &mut K,
) -> Status
    // `Usage` comes exactly where the words ask for nothing that there is, if there is memory to read them.
    ensures usage { result ≡ Status.Usage → asks (map (λ w. w.now) words.now) ≡ None }
    ensures refused { asks (map (λ w. w.now) words.now) ≡ None → (result ≡ Status.Usage) ⊎ (result ≡ Status.Memory) }

    // Each line was answered as by a machine of plain trees, and the store and its image stand for its last state, over the
    // arena that the words ask for; else nothing was read or written, and the store is vacant.
    ensures ran { IfBegun result
        (Ran (asks (map (λ w. w.now) words.now)) (source.new ≡ source.old)
        (record { before = S.left source.old; after = S.left source.new })
        (record { wrote = K.wrote; faults = K.faults; before = sink.old; after = sink.new }) store.new result)
        ((store.new ≡ Store.Vacant) × (source.new ≡ source.old) × (sink.new ≡ sink.old)) }

    // A fault is told: the count of an object's faults rose where the status says so, and else is as before.
    ensures read_told { TellsRead result (S.faults source.old) (S.faults source.new) }
    ensures write_told { TellsWrite result (K.faults sink.old) (K.faults sink.new) }

    // Where there was memory and nothing failed, every line that is allowed has its reply, up to an accepted `sys quit`.
    ensures complete { IsComplete result (Rose (S.faults source.old) (S.faults source.new))
        (Rose (K.faults sink.old) (K.faults sink.new)) }
{
    *store = Store::Vacant;
    match read_options(alloc, words) {
        Ok(options) => run_by(alloc, options, store, source, sink),
        Err(refusal) => refused(refusal),
    }
}
