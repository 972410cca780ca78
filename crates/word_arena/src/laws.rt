// What holds of blocks, of their words and of what calls change: each law is the contract of a function that does nothing.
ghost use Rattle.std.specs.Prelude.{◌≡◌, ℕ, ◌+◌, ◌*◌, ◌<◌, ◌≤◌, ◌⊎◌, List, length, slice_index, slice_set};
ghost use Rattle.word_arena.specs.Blocks.{size_at, free_at, Blocked, BlockBegins, IsUsed, IsListed, free_of, FreeApart};
ghost use Rattle.word_arena.specs.Calls.{NoneFits, FirstFit, IsGreatest, taken, shortened, Merged, HeadersStay};
ghost use Rattle.word_arena.specs.Sums.{free_before, slid, used_of, words_among};
ghost use Rattle.word_arena.specs.Shifts.{IsSummed};
ghost use Rattle.word_arena.specs.Sound.{Sound};

use crate::arena::Arena;
use crate::blocks::LAST_KIND;
use crate::shifts::Shifts;

/// Two blocks are one, or have no word in common.
pub fn blocks_are_one_or_apart()
    ensures { (mem : List ℕ) (p q : ℕ) → Blocked mem → BlockBegins mem p → BlockBegins mem q
        → (p ≡ q) ⊎ ((p + size_at mem p ≤ q) ⊎ (q + size_at mem q ≤ p)) }
{}

/// Words that are written inside a block, behind its header, keep every header.
pub fn words_inside_a_block_are_no_headers()
    ensures word { (mem : List ℕ) (p q w : ℕ) → Blocked mem → BlockBegins mem p → p < q → q < p + size_at mem p
        → HeadersStay mem (slice_set mem q w) }
    ensures range { (old new : List ℕ) (p from to : ℕ) → Blocked old → BlockBegins old p → p < from → to ≤ p + size_at old p
        → length new ≡ length old → ((q : ℕ) → (q < from) ⊎ (to ≤ q) → slice_index new q ≡ slice_index old q) → HeadersStay old new }
{}

/// An arena whose memory was lent is sound still where each header is as it was.
pub fn lent_memories_come_back()
    ensures { (a b : Arena) → Sound a → HeadersStay a.mem b.mem → b.holes ≡ a.holes → Sound b }
{}

/// The greatest free block loses at most the words of the block that is taken.
pub fn greatest_blocks_lose_what_is_taken()
    ensures greatest { (mem : List ℕ) (at words kind owner before after : ℕ) → Blocked mem → FirstFit mem words at → 2 ≤ words
        → 1 ≤ kind → kind ≤ LAST_KIND → IsGreatest mem before → IsGreatest (taken mem at words kind owner) after → before ≤ after + words }
    ensures none { (mem : List ℕ) (at words kind owner n : ℕ) → Blocked mem → FirstFit mem words at → 2 ≤ words
        → 1 ≤ kind → kind ≤ LAST_KIND → NoneFits (taken mem at words kind owner) n → NoneFits mem (n + words) }
{}

/// A free block that has the words of the block that was given back and twice so many more shows that one had so many before.
pub fn given_words_join_two_free_blocks_at_most()
    ensures shows { (old new : List ℕ) (at words p : ℕ) → Blocked old → IsUsed old at → Merged old new at → BlockBegins new p
        → size_at old at + 2 * words ≤ free_at new p → (q : ℕ) × BlockBegins old q × (words ≤ free_at old q) }
    ensures none { (old new : List ℕ) (at words : ℕ) → Blocked old → IsUsed old at → Merged old new at → NoneFits old words
        → NoneFits new (size_at old at + 2 * words) }
{}

/// For each free block one is there that has as many words at least after a block was given back or cut.
pub fn free_blocks_lose_nothing_to_what_comes_free()
    ensures given { (old new : List ℕ) (at p : ℕ) → Blocked old → IsUsed old at → Merged old new at → BlockBegins old p
        → (q : ℕ) × BlockBegins new q × (free_at old p ≤ free_at new q) }
    ensures cut { (mem : List ℕ) (at words p : ℕ) → Blocked mem → IsUsed mem at → 2 ≤ words → words ≤ size_at mem at → BlockBegins mem p
        → (q : ℕ) × BlockBegins (shortened mem at words) q × (free_at mem p ≤ free_at (shortened mem at words) q) }
{}

/// Words are free or in use; those in use are in the blocks of each list that has every block in use.
pub fn words_are_free_or_in_use()
    ensures all { (mem : List ℕ) → Blocked mem → used_of mem + free_of mem ≡ length mem }
    ensures most { (mem ps : List ℕ) → Blocked mem → ((p : ℕ) → IsUsed mem p → IsListed p ps) → used_of mem ≤ words_among mem ps }
{}

/// As much is free before each place of a block in use, and before its end, as before the block, and no more than lies before it.
/// Blocks that move down by so much stay in their order, and none meets another.
pub fn blocks_in_use_move_down_as_one()
    ensures same { (mem : List ℕ) (p at : ℕ) → Blocked mem → IsUsed mem p → p ≤ at → at ≤ p + size_at mem p
        → free_before mem at ≡ free_before mem p }
    ensures most { (mem : List ℕ) (p : ℕ) → Blocked mem → BlockBegins mem p → free_before mem p ≤ p }
    ensures order { (mem : List ℕ) (p q : ℕ) → Blocked mem → IsUsed mem p → IsUsed mem q → p < q
        → slid mem p p + size_at mem p ≤ slid mem q q }
{}

/// What was summed up stays right while each header is as it was.
pub fn sums_stay_with_the_headers()
    ensures before { (old new : List ℕ) (at : ℕ) → Blocked old → HeadersStay old new → free_before new at ≡ free_before old at }
    ensures summed { (old new : List ℕ) (s : Shifts) → HeadersStay old new → IsSummed old s → IsSummed new s }
{}

/// Where each header is as it was, blocks begin where they began and nowhere else, each is in use still that was, as many words
/// are free, and no two free blocks have come to stand side by side.
pub fn blocks_stay_with_the_headers()
    ensures blocked { (old new : List ℕ) → Blocked old → HeadersStay old new → Blocked new }
    ensures begins { (old new : List ℕ) (p : ℕ) → Blocked old → HeadersStay old new → BlockBegins old p → BlockBegins new p }
    ensures no_more { (old new : List ℕ) (p : ℕ) → Blocked old → HeadersStay old new → BlockBegins new p → BlockBegins old p }
    ensures used { (old new : List ℕ) (p : ℕ) → Blocked old → HeadersStay old new → IsUsed old p → IsUsed new p }
    ensures free { (old new : List ℕ) → Blocked old → HeadersStay old new → free_of new ≡ free_of old }
    ensures apart { (old new : List ℕ) → Blocked old → HeadersStay old new → FreeApart old → FreeApart new }
{}
