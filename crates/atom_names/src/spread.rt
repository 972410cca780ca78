// Where the search for a name begins.
ghost use Rattle.std.specs.Prelude.{◌≡◌, ℕ, ◌<◌};
ghost use Rattle.atom_names.specs.Spread.{first_slot};

/// The slot at which the search for a name begins: the hash FNV-1a of 32 bits, cut to its upper 16.
pub(crate) fn spread(name: &[u8]) -> usize
    ensures value { result ≡ first_slot name.now }
    ensures inside { result < 65536 }
{
    let mut hash: u32 = 2_166_136_261;
    for byte in name {
        hash = (hash ^ u32::from(*byte)).wrapping_mul(16_777_619);
    }
    (hash >> 16) as usize
}
