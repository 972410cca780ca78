// The text of a term, from its word.
ghost use Rattle.std.specs.Prelude.{◌≡◌, ℕ, ◌<◌, ◌≤◌, ◌⊎◌, Bool, List, [], IfOk, OnErr, OnOk, length, reverse};
ghost use Rattle.line_io.specs.Faults.{Rose};
ghost use Rattle.line_io.specs.Sink.{Writes, WritesTold};
ghost use Rattle.plain_term.specs.Tree.{Tree};
ghost use Rattle.plain_term.specs.Text.{text};
ghost use Rattle.term_words.specs.Stands.{Stands};
ghost use Rattle.term_print.specs.Left.{mark_text};
ghost use Rattle.term_print.specs.Printed.{BeginsText, CanBegin, CanPrint};
ghost use Rattle.term_print.specs.Going.{CanGoOn, PrintsAll, PrintsOn};

use crate::levels::{Level, Mark, Step, end_bytes, keep, level_of, mark_bytes, next};
use crate::own::put_own;
use crate::runs::gather;
use arrayvec::ArrayVec;
use atom_names::AtomNames;
use line_io::{Sink, SinkFault};
use term_read::look_at;
use term_walk::{DEPTH_LIMIT, FEW_LEVELS, NODE_LIMIT};
use text_parts::put;
use word_mem::WordMem;

// The levels of a term within the walk limit, with one for the tail of a list at its depth, and one that stays free.
const ALL_LEVELS: usize = DEPTH_LIMIT + 2;

/// Writes the text of a term that is within the walk limit.
pub fn print<K: Sink>(
    mem: &WordMem,
    names: &AtomNames,
    w: u64,
    sink: &mut K,
) -> Result<(), SinkFault>
    requires { CanPrint mem.now names.now w }
    ensures puts { (c : ℕ → ℕ → Bool) (shared : List (List ℕ)) (t : Tree) → Stands c shared mem.now w t
        → Writes K.wrote sink.old sink.new result (text names.now shared t) }
    ensures later { K.faults sink.old ≤ K.faults sink.new }
    ensures rose { OnErr result (Rose (K.faults sink.old) (K.faults sink.new)) }
    ensures told { OnOk result (K.faults sink.new ≡ K.faults sink.old) }
{
    print_whole(mem, names, w, sink)
}

// The same, said at once.
fn print_whole<K: Sink>(
    mem: &WordMem,
    names: &AtomNames,
    w: u64,
    sink: &mut K,
) -> Result<(), SinkFault>
    requires { CanPrint mem.now names.now w }
    ensures { (c : ℕ → ℕ → Bool) (shared : List (List ℕ)) (t : Tree) → Stands c shared mem.now w t
        → WritesTold K.wrote K.faults sink.old sink.new (text names.now shared t) result }
{
    let mut levels: ArrayVec<Level, FEW_LEVELS> = ArrayVec::new();
    begin(mem, names, &mut levels, w, Mark::Nothing, false, sink)?;
    let seen = print_left(mem, names, &mut levels, 1, sink)?;
    if levels.is_empty() {
        return Ok(());
    }
    print_deep(mem, names, &levels, seen, sink)
}

// Writes what is left on the levels where they do not suffice, on all levels of a walk.
#[cold]
#[inline(never)]
fn print_deep<K: Sink>(
    mem: &WordMem,
    names: &AtomNames,
    few: &ArrayVec<Level, FEW_LEVELS>,
    seen: u64,
    sink: &mut K,
) -> Result<(), SinkFault>
    requires begun { CanGoOn mem.now names.now (reverse few.now.items) seen K.wrote K.faults sink.old }
    requires few { seen ≤ NODE_LIMIT }
    ensures { PrintsAll mem.now names.now (reverse few.now.items) seen K.wrote K.faults sink.old sink.new result }
{
    let mut levels: ArrayVec<Level, ALL_LEVELS> = ArrayVec::new();
    let Ok(()) = levels.try_extend_from_slice(few.as_slice()) else {
        unreachable!()
    };
    print_left(mem, names, &mut levels, seen, sink)?;
    Ok(())
}

// Writes what is left on the levels, until nothing is left or all levels are taken. Counts the nodes that were seen.
fn print_left<K: Sink, const N: usize>(
    mem: &WordMem,
    names: &AtomNames,
    levels: &mut ArrayVec<Level, N>,
    before: u64,
    sink: &mut K,
) -> Result<u64, SinkFault>
    requires begun { CanGoOn mem.now names.now (reverse levels.old.items) before K.wrote K.faults sink.old }
    requires few { before ≤ NODE_LIMIT }
    ensures on { PrintsOn mem.now names.now (reverse levels.old.items) before (reverse levels.new.items) K.wrote K.faults sink.old sink.new result }
    ensures few { IfOk result (λ seen. seen ≤ NODE_LIMIT) }
    ensures all { OnOk result ((levels.new.items ≡ []) ⊎ (length levels.new.items ≡ N)) }
{
    mem.bounded();
    let mut text = ArrayVec::new();
    let mut seen = before;
    while !levels.is_full() {
        let Some(top) = levels.pop() else {
            return Ok(seen);
        };
        let level = gather(mem, top, &mut text);
        put(sink, text.as_slice())?;
        match next(level) {
            Step::End(last) => put(sink, end_bytes(last))?,
            Step::Part(part) => {
                keep(levels, part.more);
                let word = mem.get(part.place);
                begin(mem, names, levels, word, part.mark, part.tail, sink)?;
                seen += 1;
            }
        }
    }
    Ok(seen)
}

// Writes a mark, and a word's term up to its parts, which are left then.
fn begin<K: Sink, const N: usize>(
    mem: &WordMem,
    names: &AtomNames,
    levels: &mut ArrayVec<Level, N>,
    word: u64,
    mark: Mark,
    tail: bool,
    sink: &mut K,
) -> Result<(), SinkFault>
    requires can { CanBegin mem.now names.now word }
    requires room { length levels.old.items < N }
    ensures { (c : ℕ → ℕ → Bool) (shared : List (List ℕ)) (now : Tree) → Stands c shared mem.now word now
        → BeginsText c shared mem.now names.now (mark_text mark) tail now (reverse levels.old.items) (reverse levels.new.items)
        K.wrote K.faults sink.old sink.new result }
{
    let look = look_at(mem, word);
    keep(levels, level_of(look, tail));
    put(sink, mark_bytes(mark))?;
    put_own(mem, names, look, tail, sink)
}
