// Words of a range, and of a list beside the memory, are replaced by their images.
ghost use Rattle.std.specs.Prelude.{◌≡◌, ℕ, ◌+◌, ◌^◌, ◌<◌, ◌≤◌, length, slice_index};
ghost use Rattle.word_shift.specs.Shifted.{word_image, FitsBeside, WordsShifted, ListShifted};

use crate::places::Places;
use word_mem::WordMem;

/// The words from one place up to another, such as a stack, are replaced by their images.
pub fn relocate_words<P: Places>(mem: &mut WordMem, from: u64, to: u64, places: &P)
    requires inside { to ≤ length mem.old }
    requires fits { FitsBeside (P.fits places.now) (P.to places.now) mem.old from to }
    ensures { WordsShifted (P.to places.now mem.old) mem.old mem.new from to }
{
    let mut at = from;
    while at < to {
        let word = image(mem, mem.get(at), places);
        mem.set(at, word);
        at += 1;
    }
}

/// The words of a list beside the memory, such as registers, are replaced by their images.
pub fn relocate_all<P: Places>(words: &mut [u64], mem: &WordMem, places: &P)
    requires fits { P.fits places.now mem.now }
    ensures { ListShifted (P.to places.now mem.now) words.old words.new }
{
    for i in 0..words.len() {
        words[i] = image(mem, words[i], places);
    }
}

// The image of a word: a pointer leads to its object's new place, any other word is as it is.
fn image<P: Places>(mem: &WordMem, word: u64, places: &P) -> u64
    requires fits { P.fits places.now mem.now }
    ensures { result ≡ word_image (P.to places.now mem.now) word }
{
    let tag = word % 4;
    if tag == 1 || tag == 2 {
        places.place(mem, word / 4) * 4 + tag
    } else {
        word
    }
}
