// The command line.
ghost use Rattle.std.specs.Prelude.{◌≡◌, ◌≢◌, ◌↔◌, ◌⊎◌, IfErr, IfSome, map, None, string_bytes};
ghost use Rattle.std.specs.IoError.{error_kind};
ghost use Rattle.std.specs.Vec.Iter.{into_iter_items};
ghost use Rattle.engine.specs.Serving.{TellsRead, TellsWrite};
ghost use Rattle.machine_run.specs.Arguments.{asked_by};
ghost use Rattle.machine_run.specs.Contract.{IfBegun, Ran};

use crate::runs::run;
use crate::store::Store;
use engine::Status;
use line_io::{Sink, Source};
use std::alloc::Global;
use std::env::Args;
use std::io;
use std::io::ErrorKind;

/// All words, in order.
fn words_of(alloc: Global, args: Args) -> Option<Vec<String>>
    ensures { IfSome result (λ v. v.items ≡ into_iter_items args) }
{
    let mut words = Vec::new(alloc);
    for word in args {
        let Ok(()) = words.push(word) else {
            return None;
        };
    }
    Some(words)
}

/// The texts of words, in order.
fn texts_of<'a>(alloc: Global, words: &'a [String]) -> Option<Vec<&'a str>>
    ensures { IfSome result (λ v. map (λ t. t.now) v.items ≡ map string_bytes words.now) }
{
    let mut texts = Vec::new(alloc);
    for word in words {
        let Ok(()) = texts.push(word.as_str()) else {
            return None;
        };
    }
    Some(texts)
}

/// The status where the words could not be had: one that is no UTF-8 is a faulty command line.
fn unread(fault: &io::Error) -> Status
    ensures memory { result ≡ Status.Memory ↔ (error_kind fault.now ≡ ErrorKind.OutOfMemory) }
    ensures usage { error_kind fault.now ≢ ErrorKind.OutOfMemory → result ≡ Status.Usage }
{
    match fault.kind() {
        ErrorKind::OutOfMemory => Status::Memory,
        _ => Status::Usage,
    }
}

/// Runs with the words of the command line, each one.
pub fn run_with<S: Source, K: Sink>(
    alloc: Global,
    args: io::Result<Args>,
    store: &mut Store,
    source: &mut S,
    sink: &mut K,
) -> Status
    // What `run` promises for its words, for those of the command line.
    requires vacant { store.old ≡ Store.Vacant }
    ensures usage { result ≡ Status.Usage → asked_by args ≡ None }
    ensures refused { asked_by args ≡ None → (result ≡ Status.Usage) ⊎ (result ≡ Status.Memory) }
    ensures unread { IfErr args (λ e. error_kind e ≢ ErrorKind.OutOfMemory → result ≡ Status.Usage) }
    ensures ran { IfBegun result
        (Ran (asked_by args) (source.new ≡ source.old)
        (record { before = S.left source.old; after = S.left source.new })
        (record { wrote = K.wrote; faults = K.faults; before = sink.old; after = sink.new }) store.new result)
        ((store.new ≡ Store.Vacant) × (source.new ≡ source.old) × (sink.new ≡ sink.old)) }
    ensures read_told { TellsRead result (S.faults source.old) (S.faults source.new) }
    ensures write_told { TellsWrite result (K.faults sink.old) (K.faults sink.new) }
{
    let args = match args {
        Ok(args) => args,
        Err(fault) => return unread(&fault),
    };
    if let Some(words) = words_of(alloc, args)
        && let Some(texts) = texts_of(alloc, words.as_slice())
    {
        run(alloc, texts.as_slice(), store, source, sink)
    } else {
        Status::Memory
    }
}
