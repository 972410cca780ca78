// The stretches of a memory: so many words side by side.
ghost use Rattle.std.specs.Prelude.{◌≡◌, ◌+◌, ◌*◌, ◌/◌, ◌<◌, ◌^◌, length, min};

use word_mem::WordMem;

/// The words of a stretch.
pub(crate) const STRETCH: u64 = 64;

/// The stretch of a place.
pub(crate) fn stretch_of(at: u64) -> usize
    ensures { result ≡ at / STRETCH }
{
    (at / STRETCH) as usize
}

/// Where the words of a stretch end that the memory has.
pub(crate) fn stretch_end(mem: &WordMem, stretch: usize) -> u64
    requires { stretch < 2 ^ 24 }
    ensures { result ≡ min (stretch * STRETCH + STRETCH) (length mem.now) }
{
    (stretch as u64 * STRETCH + STRETCH).min(mem.len())
}

/// The words of a short stretch, of which the table of shifts has an entry each.
pub(crate) const SHORT: u64 = 8;

/// The short stretch of a place.
#[inline]
pub(crate) fn short_of(at: u64) -> usize
    ensures { result ≡ at / SHORT }
{
    (at / SHORT) as usize
}

/// Where the words of a short stretch end that the memory has.
#[inline]
pub(crate) fn short_end(mem: &WordMem, short: usize) -> u64
    requires { short < 2 ^ 24 }
    ensures { result ≡ min (short * SHORT + SHORT) (length mem.now) }
{
    (short as u64 * SHORT + SHORT).min(mem.len())
}
