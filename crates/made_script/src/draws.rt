// What a line draws from the generator.
ghost use Rattle.std.specs.Prelude.{◌≡◌, ◌<◌};
ghost use Rattle.made_script.specs.Draws.{draw, drawn, after_draws};

use rand_core::utils::NextWord;
use rand_pcg::Lcg64Xsh32;

/// The numbers that a line draws, in this order.
#[derive(Clone, Copy)]
pub(crate) struct Drawn {
    pub process: u32,
    pub first: u32,
    pub second: u32,
    pub row: u32,
    pub value: u32,
}

/// The next word of the generator, modulo `m`.
fn draw(generator: &mut Lcg64Xsh32, m: u32) -> u32
    requires { 0 < m }
    ensures value { result ≡ (draw m generator.old).0 }
    ensures rest { generator.new ≡ (draw m generator.old).1 }
    ensures bound { result < m }
{
    generator.next_word() % m
}

/// What the next line draws.
pub(crate) fn draw_line(generator: &mut Lcg64Xsh32) -> Drawn
    ensures drawn { result ≡ drawn generator.old }
    ensures rest { generator.new ≡ after_draws generator.old }
    ensures bound { result.row < 16 }
{
    let process = 1 + draw(generator, 8);
    let first = draw(generator, 16);
    let second = draw(generator, 16);
    let row = draw(generator, 16);
    let value = draw(generator, 1000);
    Drawn {
        process,
        first,
        second,
        row,
        value,
    }
}
