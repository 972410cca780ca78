// The text of `counts`, part by part.
ghost use Rattle.std.specs.Prelude.{◌≡◌, ℕ, ◌++◌, map};
ghost use Rattle.line_io.specs.Sink.{WritesTold};
ghost use Rattle.plain_machine.specs.Maps.{bin_text, fun_text};
ghost use Rattle.plain_machine.specs.Texts.{divided};
ghost use Rattle.term_words.specs.Counted.{In};
ghost use Rattle.record_move.specs.Tables.{AllLieWithin};
ghost use Rattle.reply_text.specs.Texts.{divider};
ghost use Rattle.counts_text.specs.Told.{FunsDiffer, CanReadTables, CanTellCounts, bin_of, by_name, counts_told, fun_of};

use crate::next::next_fun;
use atom_names::AtomNames;
use line_io::{Sink, SinkFault};
use reply_text::{put_bin, put_fun};
use shared_rec::{count_of, serial_of};
use text_parts::put;
use word_mem::WordMem;

/// Writes the text of `counts` from the tables of records: the places of those of binaries, and of those of funs.
pub fn put_counts<K: Sink>(
    mem: &WordMem,
    bins: &[u64],
    funs: &[u64],
    names: &AtomNames,
    sink: &mut K,
) -> Result<(), SinkFault>
    requires { CanTellCounts mem.now names.now bins.now funs.now }
    ensures { WritesTold K.wrote K.faults sink.old sink.new (counts_told mem.now names.now bins.now funs.now) result }
{
    put(sink, b"bins [")?;
    put_bins(mem, bins, sink)?;
    put(sink, b"] funs [")?;
    put_funs(mem, funs, names, sink)?;
    put(sink, b"]")
}

// Writes the entries of the records of binaries, divided by commas.
fn put_bins<K: Sink>(mem: &WordMem, bins: &[u64], sink: &mut K) -> Result<(), SinkFault>
    requires { AllLieWithin mem.now bins.now }
    ensures { WritesTold K.wrote K.faults sink.old sink.new (divided (map bin_text (map (bin_of mem.now) bins.now))) result }
{
    for i in 0..bins.len() {
        let v = bins[i];
        put_bin(i == 0, serial_of(mem, v), count_of(mem, v), sink)?;
    }
    Ok(())
}

// Writes the entries of the records of funs, by their names and arities, divided by commas.
fn put_funs<K: Sink>(
    mem: &WordMem,
    funs: &[u64],
    names: &AtomNames,
    sink: &mut K,
) -> Result<(), SinkFault>
    requires each { (v : ℕ) → In v funs.now → CanReadTables mem.now names.now v }
    requires apart { FunsDiffer mem.now funs.now }
    ensures { WritesTold K.wrote K.faults sink.old sink.new
        (divided (map (fun_text names.now) (map (fun_of mem.now) (by_name mem.now names.now funs.now)))) result }
{
    let _known = names.count();
    let mut last = None;
    for i in 0..funs.len() {
        let Some(v) = next_fun(mem, names, last, funs) else {
            return Ok(());
        };
        put_entry(mem, names, i == 0, v, sink)?;
        last = Some(v);
    }
    Ok(())
}

// Writes the entry of a fun's record.
fn put_entry<K: Sink>(
    mem: &WordMem,
    names: &AtomNames,
    first: bool,
    v: u64,
    sink: &mut K,
) -> Result<(), SinkFault>
    requires { CanReadTables mem.now names.now v }
    ensures { WritesTold K.wrote K.faults sink.old sink.new (divider first ++ fun_text names.now (fun_of mem.now v)) result }
{
    let owner = serial_of(mem, v);
    put_fun(
        first,
        names.name(owner / 256),
        owner % 256,
        count_of(mem, v),
        sink,
    )
}
