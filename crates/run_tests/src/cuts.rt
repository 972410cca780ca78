// Texts that are cut at marks.
ghost use Rattle.std.specs.Prelude.{◌≤◌, length};

// How many bytes of a text stand before the first such byte.
fn len_before(text: &[u8], mark: u8) -> usize
    ensures { result ≤ length text.now }
{
    for (n, b) in text.iter().enumerate() {
        if *b == mark {
            return n;
        }
    }
    text.len()
}

// What stands before the first such byte, and what stands behind it.
pub(crate) fn cut(text: &[u8], mark: u8) -> (&[u8], &[u8]) {
    let before = len_before(text, mark);
    let behind = text.len().min(before + 1);
    (&text[..before], &text[behind..])
}
