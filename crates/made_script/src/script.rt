// The lines of a script that a number makes, one after the other.
ghost use Rattle.std.specs.Prelude.{◌≡◌, ◌∷◌, [], MatchBool};
ghost use Rattle.made_script.specs.Script.{made_script, lines_to_come};

use crate::draws::draw_line;
use crate::lines::{LINE_ROOM, put_line_of, write_line};
use arrayvec::ArrayVec;
use rand_pcg::Lcg64Xsh32;

/// The lines that stand before those that are drawn: seven more processes, and a literal area.
const OPENING: [&[u8]; 8] = [
    b"sys spawn",
    b"sys spawn",
    b"sys spawn",
    b"sys spawn",
    b"sys spawn",
    b"sys spawn",
    b"sys spawn",
    b"sys load base {lit,[1,2,3]} ; #{k=>v}",
];

/// How many lines of a script are drawn: with those of the opening it has 100,000.
const DRAWN_LINES: u32 = 99_992;

/// The lines of a made script that are yet to come.
#[derive(Drop)]
pub struct MadeScript {
    generator: Lcg64Xsh32,
    opened: usize,
    left: u32,
}

impl MadeScript {
    /// The script of a number, with all of its lines to come.
    pub fn new(number: u64) -> MadeScript
        ensures { lines_to_come result ≡ made_script number }
    {
        MadeScript {
            generator: Lcg64Xsh32::new(number, 1),
            opened: 0,
            left: DRAWN_LINES,
        }
    }

    /// Makes `line` the next line, without its line end. Where none is left the answer is false.
    pub fn next_line(&mut self, line: &mut ArrayVec<u8, LINE_ROOM>) -> bool
        ensures { MatchBool result (lines_to_come self.old ≡ line.new.items ∷ lines_to_come self.new)
            ((lines_to_come self.old ≡ []) × (self.new ≡ self.old)) }
    {
        if self.opened < OPENING.len() {
            put_line_of(line, &OPENING, self.opened);
            self.opened += 1;
            return true;
        }
        if self.left == 0 {
            return false;
        }
        let drawn = draw_line(&mut self.generator);
        write_line(line, &drawn);
        self.left -= 1;
        true
    }
}
