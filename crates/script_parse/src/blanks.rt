// Blanks, texts and words at the front of a line.
ghost use Rattle.std.specs.Prelude.{◌≡◌, ℕ, ◌≢◌, ◌+◌, List, [], ◌∷◌, ◌++◌, length, MatchOption, ◌≤◌, ◌<◌};
ghost use Rattle.std.specs.List.{prefix_len};
ghost use Rattle.script_grammar.specs.Grammar.{is_blank};
ghost use Rattle.script_parse.specs.Reading.{after_blanks, gap_at, byte_at, text_at, are_blanks, is_solid};

/// A space or a tab.
fn blank(b: u8) -> bool
    ensures { result ≡ is_blank b }
{
    b == b' ' || b == b'\t'
}

/// The first byte, and the bytes after it.
pub(crate) fn first(line: &[u8]) -> Option<(u8, &[u8])>
    ensures { MatchOption result (line.now ≡ []) (λ f. line.now ≡ f.0 ∷ f.1.now) }
{
    match line {
        [] => None,
        [b, rest @ ..] => Some((*b, rest)),
    }
}

/// The line without the blanks at its front.
pub(crate) fn skip(line: &[u8]) -> &[u8]
    ensures value { result.now ≡ after_blanks line.now }
    ensures shorter { length result.now ≤ length line.now }
{
    let mut rest = line;
    while let Some((b, after)) = first(rest)
        && blank(b)
    {
        rest = after;
    }
    rest
}

/// The line after one blank.
pub(crate) fn gap(line: &[u8]) -> Option<&[u8]>
    ensures value { MatchOption result (gap_at line.now ≡ None) (λ r. gap_at line.now ≡ Some r.now) }
    ensures shorter { MatchOption result (Unit {0}) (λ r. length r.now < length line.now) }
{
    if let Some((b, rest)) = first(line)
        && blank(b)
    {
        return Some(rest);
    }
    None
}

/// The line after this byte.
pub(crate) fn after_byte(line: &[u8], c: u8) -> Option<&[u8]>
    ensures value { MatchOption result (byte_at c line.now ≡ None) (λ r. byte_at c line.now ≡ Some r.now) }
    ensures shorter { MatchOption result (Unit {0}) (λ r. length r.now < length line.now) }
{
    if let Some((b, rest)) = first(line)
        && b == c
    {
        return Some(rest);
    }
    None
}

/// The line after this text.
pub(crate) fn after_text<'a>(line: &'a [u8], text: &[u8]) -> Option<&'a [u8]>
    ensures value { MatchOption result (text_at text.now line.now ≡ None) (λ r. text_at text.now line.now ≡ Some r.now) }
    ensures shorter { MatchOption result (Unit {0}) (λ r. length r.now + length text.now ≤ length line.now) }
{
    let mut rest = line;
    for b in text {
        rest = after_byte(rest, *b)?;
    }
    Some(rest)
}

/// Nothing but blanks is left.
pub(crate) fn ends(line: &[u8]) -> bool
    ensures { result ≡ are_blanks line.now }
{
    for b in line {
        if !blank(*b) {
            return false;
        }
    }
    true
}

/// How long the word at the front is.
pub(crate) fn word_len(line: &[u8]) -> usize
    ensures value { result ≡ prefix_len is_solid line.now }
    ensures within { result ≤ length line.now }
{
    for (n, b) in line.iter().enumerate() {
        if blank(*b) {
            return n;
        }
    }
    line.len()
}
