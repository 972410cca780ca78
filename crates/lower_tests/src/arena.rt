// The arena answers as a plain list of blocks does, over a table of calls, and over long runs of calls that are drawn at random.
ghost use Rattle.std.specs.Prelude.{◌≡◌, ◌≤◌, ◌<◌, ◌^◌, ℕ, length, IfSome};
ghost use Rattle.word_arena.specs.Blocks.{size_at, BlockBegins, IsUsed};
ghost use Rattle.word_arena.specs.Shifts.{IsSummed};
ghost use Rattle.word_arena.specs.Sound.{Sound};

use std::alloc::Global;
use word_arena::{
    Arena, KINDS, LAST_KIND, Shifts, lent_memories_come_back, words_inside_a_block_are_no_headers,
};
use word_mem::WordMem;

// A block that is taken: the place where it begins, and what its header and its second word say. What lies between two of them is
// free, and the last one has no words and stands at the end of the memory.
#[derive(Clone, Copy)]
struct Block {
    at: u64,
    words: u64,
    kind: u64,
    owner: u64,
}

// A call. A block is told by how many blocks stand before it, free ones too.
#[derive(Clone, Copy)]
enum Act {
    // So many words of a kind are taken for an owner.
    Take(u64, u64, u64),
    Give(u64),
    // A block is cut by so many words.
    Cut(u64, u64),
    Turn(u64, u64),
    Pack,
}

// Calls on a free arena, in their order. The last is answered `None` where there are no more than 4,096 words.
const ACTS: [Act; 24] = [
    Act::Pack,
    Act::Take(2, 1, 11),
    Act::Pack,
    Act::Take(70, 2, 12),
    Act::Take(3, 6, 13),
    Act::Take(130, 1, 14),
    Act::Give(1),
    Act::Pack,
    Act::Take(2, 7, 15),
    Act::Cut(2, 60),
    Act::Take(4, 8, 16),
    Act::Give(0),
    Act::Give(2),
    Act::Turn(1, 4),
    Act::Pack,
    Act::Pack,
    Act::Take(64, 3, 17),
    Act::Give(2),
    Act::Cut(1, 1),
    Act::Turn(0, 8),
    Act::Pack,
    Act::Give(0),
    Act::Pack,
    Act::Take(4_090, 1, 18),
];

// The words of an arena, the most that are taken at a time, and how many calls are drawn.
const RUNS: [(u64, u64, u32); 3] = [
    (4_096, 100, 4_000),
    (262_144, 4_000, 2_000),
    (600_000, 20_000, 2_000),
];

// Which block begins at a place.
fn block_at(row: &[Block], place: u64) -> usize {
    for k in 0..row.len() {
        if row[k].at == place {
            return k;
        }
    }
    row.len()
}

// Brings the blocks side by side; the last one, which has no words, stays at the end.
fn plain_pack(row: &mut [Block]) {
    let mut at = 0u64;
    for k in 0..row.len() {
        if row[k].words > 0 {
            row[k].at = at;
            at = at.wrapping_add(row[k].words);
        }
    }
}

// Takes the first free words that are enough.
fn plain_take(row: &mut Vec<Block>, words: u64, kind: u64, owner: u64) -> Option<u64> {
    let mut at = 0u64;
    for k in 0..row.len() {
        if row[k].at.wrapping_sub(at) >= words {
            let taken = Block {
                at,
                words,
                kind,
                owner,
            };
            row.insert(k, taken).ok()?;
            return Some(at);
        }
        at = row[k].at.wrapping_add(row[k].words);
    }
    None
}

// Whether the header of so many words of this kind stands at the place, where there are words.
fn has_header(mem: &WordMem, at: u64, words: u64, kind: u64) -> bool {
    words == 0 || at < mem.len() && mem.get(at) == words.wrapping_mul(KINDS).wrapping_add(kind)
}

// Whether a block stands in the memory, with its owner in its second word and in its last one where it is taken.
fn stands(mem: &WordMem, block: &Block) -> bool {
    has_header(mem, block.at, block.words, block.kind)
        && (block.words == 0
            || has_word(mem, block.at.wrapping_add(1), block.owner)
                && has_word(
                    mem,
                    block.at.wrapping_add(block.words).wrapping_sub(1),
                    block.owner,
                ))
}

fn has_word(mem: &WordMem, at: u64, word: u64) -> bool {
    at < mem.len() && mem.get(at) == word
}

// Whether the memory and the sums are those of the list.
fn is_as(arena: &Arena, row: &[Block]) -> bool
    requires { Sound arena.now }
{
    let mut at = 0u64;
    let mut free = 0u64;
    let mut most = 0u64;
    for block in row {
        let gap = block.at.wrapping_sub(at);
        if !has_header(&arena.mem, at, gap, 0) || !stands(&arena.mem, block) {
            return false;
        }
        free = free.wrapping_add(gap);
        most = most.max(gap);
        at = block.at.wrapping_add(block.words);
    }
    at == arena.mem.len() && arena.free_words() == free && arena.greatest() == most
}

// The block that stands so many blocks behind the first, or the last one.
fn block_behind(arena: &Arena, blocks: u64) -> u64
    requires sound { Sound arena.now }
    requires some { 0 < length arena.now.mem }
    ensures begins { BlockBegins arena.now.mem result }
    ensures inside { result < length arena.now.mem }
{
    let mut at = 0;
    'walk: for _ in 0..blocks {
        let Some(next) = arena.next_block(at) else {
            return at;
        };
        at = next;
    }
    at
}

// The block in use that stands so many blocks behind the first, or the last one.
fn used_behind(arena: &Arena, blocks: u64) -> Option<u64>
    requires sound { Sound arena.now }
    ensures { IfSome result (λ at. IsUsed arena.now.mem at) }
{
    if arena.mem.len() == 0 {
        return None;
    }
    let at = block_behind(arena, blocks);
    if arena.mem.get(at) % KINDS == 0 {
        None
    } else {
        Some(at)
    }
}

// Writes the owner of a block at its last word, too, so that it is seen whether all words move.
fn mark(arena: &mut Arena, at: u64, words: u64, owner: u64)
    requires sound { Sound arena.old }
    requires block { BlockBegins arena.old.mem at }
    requires words { (2 ≤ words) × (size_at arena.old.mem at ≡ words) }
    ensures { Sound arena.new }
{
    words_inside_a_block_are_no_headers();
    lent_memories_come_back();
    arena.mem.bounded();
    arena.mem.set(at + words - 1, owner);
}

fn takes(arena: &mut Arena, row: &mut Vec<Block>, words: u64, kind: u64, owner: u64) -> bool
    requires { Sound arena.old }
    ensures { Sound arena.new }
{
    if words < 2 || kind < 1 || kind > LAST_KIND {
        return false;
    }
    let at = arena.take(words, kind, owner);
    if let Some(at) = at {
        mark(arena, at, words, owner);
    }
    at == plain_take(row, words, kind, owner)
}

fn gives(arena: &mut Arena, row: &mut Vec<Block>, blocks: u64) -> bool
    requires { Sound arena.old }
    ensures { Sound arena.new }
{
    let Some(at) = used_behind(arena, blocks) else {
        return false;
    };
    let k = block_at(row, at);
    if k >= row.len() {
        return false;
    }
    arena.give(at);
    row.remove(k);
    true
}

// Cuts a block by so many words, as far as two are left.
fn cuts(arena: &mut Arena, row: &mut [Block], blocks: u64, less: u64) -> bool
    requires { Sound arena.old }
    ensures { Sound arena.new }
{
    let Some(at) = used_behind(arena, blocks) else {
        return false;
    };
    let k = block_at(row, at);
    if k >= row.len() {
        return false;
    }
    let size = arena.mem.get(at) / KINDS;
    let words = size.saturating_sub(less).max(2);
    arena.cut(at, words);
    mark(arena, at, words, row[k].owner);
    row[k].words = words;
    true
}

fn turns(arena: &mut Arena, row: &mut [Block], blocks: u64, kind: u64) -> bool
    requires { Sound arena.old }
    ensures { Sound arena.new }
{
    let Some(at) = used_behind(arena, blocks) else {
        return false;
    };
    let k = block_at(row, at);
    if k >= row.len() || kind < 1 || kind > LAST_KIND {
        return false;
    }
    arena.turn(at, kind);
    row[k].kind = kind;
    true
}

// Whether the sums tell of each block's first and last word by how many words it moves down when all are packed.
fn are_summed(shifts: &Shifts, mem: &WordMem, row: &[Block]) -> bool
    requires { IsSummed mem.now shifts.now }
{
    let mut words = 0u64;
    for block in row {
        let last = block.at.wrapping_add(block.words.saturating_sub(1));
        let shift = block.at.wrapping_sub(words);
        if block.at > mem.len()
            || last > mem.len()
            || shifts.before(mem, block.at) != shift
            || shifts.before(mem, last) != shift
        {
            return false;
        }
        words = words.wrapping_add(block.words);
    }
    true
}

fn packs(alloc: Global, arena: &mut Arena, row: &mut [Block]) -> bool
    requires { Sound arena.old }
    ensures { Sound arena.new }
{
    let Ok(mut shifts) = Shifts::new(alloc, arena.mem.len()) else {
        return false;
    };
    shifts.sum_up(arena);
    if !are_summed(&shifts, &arena.mem, row) {
        return false;
    }
    arena.pack();
    plain_pack(row);
    true
}

// A call on both.
fn call(alloc: Global, arena: &mut Arena, row: &mut Vec<Block>, act: Act) -> bool
    requires { Sound arena.old }
    ensures { Sound arena.new }
{
    match act {
        Act::Take(words, kind, owner) => takes(arena, row, words, kind, owner),
        Act::Give(blocks) => gives(arena, row, blocks),
        Act::Cut(blocks, less) => cuts(arena, row, blocks, less),
        Act::Turn(blocks, kind) => turns(arena, row, blocks, kind),
        Act::Pack => packs(alloc, arena, row),
    }
}

// What is drawn: a take where the block that was drawn is free, else a change of it, or seldom that all are packed.
fn drawn(arena: &Arena, most: u64, draw: u64) -> Act
    requires sound { Sound arena.now }
    requires most { 1 ≤ most }
{
    let blocks = draw % 512;
    let draw = draw / 512;
    if used_behind(arena, blocks).is_none() {
        return Act::Take((draw % most).saturating_add(2), draw % LAST_KIND + 1, draw);
    }
    match draw % 32 {
        0 => Act::Pack,
        n if n % 4 == 1 => Act::Turn(blocks, draw / 32 % LAST_KIND + 1),
        n if n % 2 == 0 => Act::Give(blocks),
        _ => Act::Cut(blocks, draw / 32 % most),
    }
}

fn calls_agree(
    alloc: Global,
    arena: &mut Arena,
    row: &mut Vec<Block>,
    most: u64,
    calls: u32,
) -> bool
    requires sound { Sound arena.old }
    requires most { 1 ≤ most }
{
    let mut draw = arena.mem.len();
    'run: for _ in 0..calls {
        draw = draw
            .wrapping_mul(6_364_136_223_846_793_005)
            .wrapping_add(1_442_695_040_888_963_407);
        let next = drawn(arena, most, draw >> 16);
        if !call(alloc, arena, row, next) || !is_as(arena, row) {
            return false;
        }
    }
    true
}

fn table_agrees(alloc: Global, arena: &mut Arena, row: &mut Vec<Block>) -> bool
    requires { Sound arena.old }
    ensures { Sound arena.new }
{
    'table: for next in &ACTS {
        if !call(alloc, arena, row, *next) || !is_as(arena, row) {
            return false;
        }
    }
    true
}

// Whether the whole arena is taken, nothing is left, and it is given back.
fn is_taken(arena: &mut Arena, words: u64) -> bool
    requires sound { Sound arena.old }
    requires least { 2 ≤ words }
    ensures { Sound arena.new }
{
    let Some(at) = arena.take(words, 1, 1) else {
        return false;
    };
    if at != 0 || arena.take(2, 1, 1).is_some() {
        return false;
    }
    arena.give(at);
    arena.free_words() == words
}

// An arena of so many words, all of them free.
fn opened(alloc: Global, words: u64) -> Option<Arena>
    requires { (2 ≤ words) × (words ≤ 2 ^ 24) }
    ensures { IfSome result (λ a. Sound a) }
{
    let mem = WordMem::new(alloc, words).ok()?;
    Arena::lay(alloc, mem).ok()
}

// An arena and the list beside it, all free, and then the calls of the table and those that are drawn on both.
fn run_agrees(alloc: Global, words: u64, most: u64, calls: u32) -> Option<bool>
    requires words { (2 ≤ words) × (words ≤ 2 ^ 24) }
    requires most { 1 ≤ most }
{
    let end = Block {
        at: words,
        words: 0,
        kind: 0,
        owner: 0,
    };
    let mut row = vec![in alloc; end; 1].ok()?;
    let mut arena = opened(alloc, words)?;
    Some(
        is_taken(&mut arena, words)
            && table_agrees(alloc, &mut arena, &mut row)
            && calls_agree(alloc, &mut arena, &mut row, most, calls),
    )
}

#[test]
fn an_arena_answers_as_a_list_of_blocks(rt: HostRuntime) {
    for (words, most, calls) in &RUNS {
        assert!(rt; run_agrees(rt.alloc(), *words, *most, *calls).unwrap_or(false));
    }
}
