// Cells at the front of a list whose heads have no parts and no words, which are passed over at once.
ghost use Rattle.std.specs.Prelude.{◌≡◌, ◌+◌, ◌*◌, ◌≤◌, ◌⊎◌, length};
ghost use Rattle.term_words.specs.Stands.{IsTerm};
ghost use Rattle.term_walk.specs.Runs.{PassesCells};

use crate::levels::{NODE_LIMIT, Rest};
use arrayvec::ArrayVec;
use word_mem::WordMem;

/// Where a run over cells ended: at a word, behind so many cells.
#[derive(Clone, Copy)]
pub struct Run {
    pub word: u64,
    pub cells: u64,
}

/// Passes over the cells at the front of a list whose heads are immediates, at most so many.
pub fn pass_cells(mem: &WordMem, w: u64, most: u64) -> Run
    requires { IsTerm mem.now w }
    ensures few { result.cells ≤ most }
    ensures passes { PassesCells mem.now w result.word result.cells }
{
    mem.bounded();
    let mut word = w;
    let mut cells = 0;
    while cells < most {
        if word % 4 != 1 {
            return Run { word, cells };
        }
        if mem.get(word / 4) % 4 != 3 {
            return Run { word, cells };
        }
        word = mem.get(word / 4 + 1);
        cells += 1;
    }
    Run { word, cells }
}

/// How many cells may be passed over after so many nodes: none where all levels are taken.
pub fn cells_left<const N: usize>(levels: &ArrayVec<Rest, N>, nodes: u64) -> u64
    requires { nodes ≤ NODE_LIMIT }
    ensures few { nodes + 2 * result ≤ NODE_LIMIT }
    ensures shallow { (result ≡ 0) ⊎ (length levels.now.items + 1 ≤ N) }
{
    if levels.is_full() {
        return 0;
    }
    (NODE_LIMIT - nodes) / 2
}
