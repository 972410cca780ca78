// Copies of bytes into a buffer at a place.
ghost use Rattle.std.specs.Prelude.{◌≡◌, ◌+◌, ◌-◌, ◌≤◌, ◌++◌, min, length, take, drop};

// Writes `bytes` over what stands in `buf` from `at` on.
pub fn put_at(buf: &mut [u8], at: usize, bytes: &[u8])
    requires { at + length bytes.now ≤ length buf.old }
    ensures len { length buf.new ≡ length buf.old }
    ensures front { take (at + length bytes.now) buf.new ≡ take at buf.old ++ bytes.now }
{
    let end = at + bytes.len();
    buf[at..end].copy_from_slice(bytes);
}

// Copies bytes from `at` on to the front of `buf`, at most `piece` of them, and says how many.
pub fn copy_out(bytes: &[u8], at: usize, piece: usize, buf: &mut [u8]) -> usize
    requires { at ≤ length bytes.now }
    ensures count { result ≡ min (min (length bytes.now - at) piece) (length buf.old) }
    ensures len { length buf.new ≡ length buf.old }
    ensures front { take result buf.new ≡ take result (drop at bytes.now) }
{
    let n = (bytes.len() - at).min(piece).min(buf.len());
    put_at(buf, 0, &bytes[at..at + n]);
    n
}
