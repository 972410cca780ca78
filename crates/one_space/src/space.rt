// The space, and how it is opened.
ghost use Rattle.std.specs.Prelude.{◌≡◌, ◌+◌, ◌%◌, ◌≤◌, ◌^◌, IfOk, IfSome};
ghost use Rattle.std.specs.Vec.{vec_capacity, vec_len};
ghost use Rattle.plain_machine.specs.declared.limits.TheConstants.{MOST_PROCESSES};
ghost use Rattle.plain_machine.specs.State.{first_state};
ghost use Rattle.store_image.specs.Image.{HoldsNothing};
ghost use Rattle.process_verbs.specs.Listing.{image};
ghost use Rattle.one_space.specs.Heap.{one_meaning};
ghost use Rattle.one_space.specs.Space.{AllFree, IsFirstHeap};

use crate::heap::OneHeap;
use plain_machine::{MOST_PROCESSES, RECORD_COST};
use process_verbs::{Over, ROW, Verbs};
use space_api::Space;
use std::alloc::Global;
use two_halves::{Halves, Row, UNUSED, fresh};
use word_mem::{OpenFault, Room, WordMem};

/// The fewest words of a space.
pub const LEAST_WORDS: u64 = 4096;

/// One heap for all processes: all that lives stands in one of two halves, and a collection moves it to the other.
pub type OneSpace = Over<OneHeap>;

/// A space of so many words in which process 1 lives alone. Its image holds nothing, and all words of a half but those that are
/// never used are free. All memory that it will ever need is taken here.
pub fn start(alloc: Global, words: u64) -> Result<OneSpace, OpenFault>
    requires least { LEAST_WORDS ≤ words }
    requires most { words ≤ 2 ^ 24 }
    requires even { words % 2 ≡ 0 }
    ensures first { IfOk result (λ b. ⟦<OneSpace as Space>⟧.stands b first_state) }
    ensures words { IfOk result (λ b. ⟦<OneSpace as Space>⟧.words b ≡ words) }
    ensures calls { IfOk result (λ b. ⟦<OneSpace as Space>⟧.calls b ≡ 0) }
    ensures named { IfOk result (λ b. ⟦<OneSpace as Space>⟧.named b ≡ 0) }
    ensures empty { IfOk result (λ b. HoldsNothing (image one_meaning b)) }
    ensures free { IfOk result (λ b. AllFree b) }
{
    let heaps = first_heap(alloc, words)?;
    let Ok(scratch) = Vec::from_elem(alloc, 0u64, ROW) else {
        return Err(OpenFault::Memory);
    };
    Ok(Over::over(Verbs {
        heaps,
        scratch,
        next: 2,
        serials: 0,
        named: 0,
        calls: 0,
        swept: false,
    }))
}

// A heap of so many words with the row of process 1.
fn first_heap(alloc: Global, words: u64) -> Result<OneHeap, OpenFault>
    requires least { LEAST_WORDS ≤ words }
    requires most { words ≤ 2 ^ 24 }
    requires even { words % 2 ≡ 0 }
    ensures { IfOk result (λ h. IsFirstHeap words h) }
{
    let mem = WordMem::new(alloc, words)?;
    let Ok(mut procs) = Vec::with_capacity(alloc, MOST_PROCESSES) else {
        return Err(OpenFault::Memory);
    };
    let records = (words / 2 / RECORD_COST) as usize;
    let Ok(bins) = Vec::with_capacity(alloc, records) else {
        return Err(OpenFault::Memory);
    };
    let Ok(funs) = Vec::with_capacity(alloc, records) else {
        return Err(OpenFault::Memory);
    };
    let Some(first) = Row::new(alloc, fresh(1)) else {
        return Err(OpenFault::Memory);
    };
    procs.push_reserved(first);
    let Some(spare) = boxes(alloc) else {
        return Err(OpenFault::Memory);
    };
    Ok(OneHeap {
        halves: Halves {
            mem,
            base: 0,
            room: Room {
                start: UNUSED,
                top: UNUSED,
                end: words / 2,
            },
            procs,
            head: 0,
            linked: 0,
            bins,
            funs,
            sweeps: 0,
        },
        spare,
    })
}

// The boxes of all rows but one, which are all spare.
fn boxes(alloc: Global) -> Option<Vec<Row>>
    ensures len { IfSome result (λ v. vec_len v + 1 ≡ MOST_PROCESSES) }
    ensures capacity { IfSome result (λ v. MOST_PROCESSES ≤ vec_capacity v) }
{
    let Ok(mut rows) = Vec::with_capacity(alloc, MOST_PROCESSES) else {
        return None;
    };
    for _i in 1..MOST_PROCESSES {
        let row = Row::new(alloc, fresh(0))?;
        rows.push_reserved(row);
    }
    Some(rows)
}
