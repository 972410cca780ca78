// Small callers of the laws of words.
ghost use Rattle.std.specs.Prelude.{◌≡◌, ℕ, ◌+◌, ◌/◌, ◌≤◌, Bool, true, List};
ghost use Rattle.plain_term.specs.Tree.{Trees};
ghost use Rattle.term_words.specs.Counted.{In, Distinct, TileStands, total};
ghost use Rattle.term_words.specs.Reach.{PassTest};
ghost use Rattle.term_words.specs.Role.{outside, IsSingle};
ghost use Rattle.term_words.specs.Stands.{AllStand};
ghost use Rattle.term_words.specs.Tiled.{tile_words};

use term_words::{
    lists_stand_word_by_word, packed_words_are_counted, places_are_counted,
    roots_stand_by_narrower_tests, weaker_tests_keep_trees,
};

/// Roots that reach no free word of a room are clear of it.
fn roots_that_reach_no_free_word_are_clear()
    ensures { (c : ℕ → ℕ → Bool) (shared : List (List ℕ)) (mem roots : List ℕ) (ts : Trees) (top limit : ℕ) → AllStand c shared mem roots ts
        → PassTest c (outside top limit) mem roots → AllStand (outside top limit) shared mem roots ts }
{
    roots_stand_by_narrower_tests();
    lists_stand_word_by_word();
    weaker_tests_keep_trees();
}

/// Distinct objects and records that lie in n words take at most n words together.
fn what_lies_in_some_words_takes_no_more()
    ensures { (c : ℕ → ℕ → Bool) (shared : List (List ℕ)) (mem : List ℕ) (from n : ℕ) (ws : List ℕ) → IsSingle c → Distinct ws
        → ((w : ℕ) → In w ws → TileStands c shared mem w) → ((w : ℕ) → In w ws → (from ≤ w / 4) × (w / 4 + tile_words mem w ≤ from + n))
        → total (tile_words mem) ws ≤ n }
{
    packed_words_are_counted();
    places_are_counted();
}

// What is called by a test is proved with it.
#[test]
fn laws_of_words_serve_their_callers(rt: HostRuntime) {
    roots_that_reach_no_free_word_are_clear();
    what_lies_in_some_words_takes_no_more();
    assert!(rt; true);
}
