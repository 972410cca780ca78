// The length of an atom at the front of a line.
ghost use Rattle.std.specs.Prelude.{◌≡◌, ℕ, ◌≤◌, ◌<◌, List, length, take, drop, MatchOption, Some, None};
ghost use Rattle.std.specs.List.{prefix_len};
ghost use Rattle.atom_names.specs.declared.row.TheConstants.{LONGEST_NAME};
ghost use Rattle.script_grammar.specs.Grammar.{is_small_letter, is_name_byte};
ghost use Rattle.script_parse.specs.Reading.{title_at};

use crate::blanks::first;
use atom_names::LONGEST_NAME;

/// A letter from a to z.
fn small_letter(b: u8) -> bool
    ensures { result ≡ is_small_letter b }
{
    b >= b'a' && b <= b'z'
}

/// A byte that an atom may have after its first.
fn name_byte(b: u8) -> bool
    ensures { result ≡ is_name_byte b }
{
    (b >= b'a' && b <= b'z')
        || (b >= b'A' && b <= b'Z')
        || (b >= b'0' && b <= b'9')
        || b == b'_'
        || b == b'@'
}

/// How many bytes of names stand at the front.
fn name_len(line: &[u8]) -> usize
    ensures value { result ≡ prefix_len is_name_byte line.now }
    ensures within { result ≤ length line.now }
{
    for (n, b) in line.iter().enumerate() {
        if !name_byte(*b) {
            return n;
        }
    }
    line.len()
}

/// An atom, and the line after it.
pub(crate) fn atom(line: &[u8]) -> Option<(&[u8], &[u8])>
    ensures value { MatchOption result (title_at line.now ≡ None) (λ r. title_at line.now ≡ Some (r.0.now, r.1.now)) }
    ensures sized { MatchOption result (Unit {0}) (λ r. (1 ≤ length r.0.now) × (length r.0.now ≤ LONGEST_NAME)) }
    ensures shorter { MatchOption result (Unit {0}) (λ r. length r.1.now < length line.now) }
{
    if let Some((b, _)) = first(line)
        && small_letter(b)
    {
        let n = name_len(line);
        if n > 0 && n <= LONGEST_NAME {
            return Some((&line[..n], &line[n..]));
        }
    }
    None
}
