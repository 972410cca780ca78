// Numbers at the front of a line.
ghost use Rattle.std.specs.Prelude.{◌≡◌, ℕ, ◌+◌, ◌≤◌, ◌<◌, ◌^◌, pos, List, length, MatchOption};
ghost use Rattle.script_grammar.specs.Grammar.{is_digit};
ghost use Rattle.script_parse.specs.declared.numbers.TheConstants.{GREATEST, WIDEST};
ghost use Rattle.script_parse.specs.Reading.{digits_at, number_at, integer_at, pid_at};

use crate::blanks::{after_byte, after_text, first};
use script_grammar::{NUMBERS, REGISTERS};

/// The greatest number of a line but those in terms.
pub(crate) const GREATEST: u64 = NUMBERS - 1;

/// The last register of a process.
pub(crate) const LAST_REGISTER: u64 = REGISTERS - 1;

/// The greatest byte of a binary.
pub(crate) const GREATEST_BYTE: u64 = 255;

/// The greatest magnitude of an integer.
pub(crate) const WIDEST: u128 = (1 << 127) - 1;

/// A digit.
fn digit(b: u8) -> bool
    ensures { result ≡ is_digit b }
{
    b >= b'0' && b <= b'9'
}

/// A number goes on by the digits at the front, up to a limit.
fn digits(line: &[u8], limit: u64, start: u64) -> Option<(u64, &[u8])>
    requires limit { limit ≤ GREATEST }
    requires start { start ≤ limit }
    ensures value { MatchOption result (digits_at limit start line.now ≡ None) (λ r. digits_at limit start line.now ≡ Some (r.0, r.1.now)) }
    ensures within { MatchOption result (Unit {0}) (λ r. (r.0 ≤ limit) × (length r.1.now ≤ length line.now)) }
{
    let mut rest = line;
    let mut n = start;
    while let Some((b, after)) = first(rest)
        && digit(b)
    {
        n = n * 10 + (b - b'0') as u64;
        if n > limit {
            return None;
        }
        rest = after;
    }
    Some((n, rest))
}

/// A number without sign and without leading zeros, up to a limit.
pub(crate) fn number(line: &[u8], limit: u64) -> Option<(u64, &[u8])>
    requires { (9 ≤ limit) × (limit ≤ GREATEST) }
    ensures value { MatchOption result (number_at limit line.now ≡ None) (λ r. number_at limit line.now ≡ Some (r.0, r.1.now)) }
    ensures within { MatchOption result (Unit {0}) (λ r. (r.0 ≤ limit) × (length r.1.now < length line.now)) }
{
    if let Some((b, rest)) = first(line)
        && digit(b)
    {
        return match b {
            b'0' => Some((0, rest)),
            _ => digits(rest, limit, (b - b'0') as u64),
        };
    }
    None
}

/// A magnitude goes on by the digits at the front.
fn wide_digits(line: &[u8], start: u128) -> Option<(u128, &[u8])>
    requires { start ≤ WIDEST }
    ensures value { MatchOption result (digits_at WIDEST start line.now ≡ None) (λ r. digits_at WIDEST start line.now ≡ Some (r.0, r.1.now)) }
    ensures within { MatchOption result (Unit {0}) (λ r. (r.0 ≤ WIDEST) × (length r.1.now ≤ length line.now)) }
{
    let mut rest = line;
    let mut n = start;
    while let Some((b, after)) = first(rest)
        && digit(b)
    {
        if n > WIDEST / 10 {
            return None;
        }
        n = n * 10 + (b - b'0') as u128;
        if n > WIDEST {
            return None;
        }
        rest = after;
    }
    Some((n, rest))
}

/// The same behind the first digit. Most magnitudes are within the greatest number, and need half the width.
fn more_digits(line: &[u8], start: u64) -> Option<(u128, &[u8])>
    requires { start ≤ 9 }
    ensures value { MatchOption result (digits_at WIDEST start line.now ≡ None) (λ r. digits_at WIDEST start line.now ≡ Some (r.0, r.1.now)) }
    ensures within { MatchOption result (Unit {0}) (λ r. (r.0 ≤ WIDEST) × (length r.1.now ≤ length line.now)) }
{
    if let Some((n, rest)) = digits(line, GREATEST, start) {
        return Some((n as u128, rest));
    }
    wide_digits(line, start as u128)
}

/// The magnitude of an integer, without leading zeros.
fn magnitude(line: &[u8]) -> Option<(u128, &[u8])>
    ensures value { MatchOption result (number_at WIDEST line.now ≡ None) (λ r. number_at WIDEST line.now ≡ Some (r.0, r.1.now)) }
    ensures within { MatchOption result (Unit {0}) (λ r. (r.0 ≤ WIDEST) × (length r.1.now < length line.now)) }
{
    if let Some((b, rest)) = first(line)
        && digit(b)
    {
        if b > b'0' {
            return more_digits(rest, (b - b'0') as u64);
        }
        return Some((0, rest));
    }
    None
}

/// An integer.
pub(crate) fn integer(line: &[u8]) -> Option<(i128, &[u8])>
    ensures value { MatchOption result (integer_at line.now ≡ None) (λ r. integer_at line.now ≡ Some (r.0, r.1.now)) }
    ensures shorter { MatchOption result (Unit {0}) (λ r. length r.1.now < length line.now) }
{
    if let Some(after) = after_byte(line, b'-')
        && let Some((n, rest)) = magnitude(after)
        && n > 0
    {
        return Some((-(n as i128), rest));
    }
    let (n, rest) = magnitude(line)?;
    Some((n as i128, rest))
}

/// The number of a pid, whose first byte stands before the line.
pub(crate) fn pid(line: &[u8]) -> Option<(u64, &[u8])>
    ensures value { MatchOption result (pid_at line.now ≡ None) (λ r. pid_at line.now ≡ Some (r.0, r.1.now)) }
    ensures shorter { MatchOption result (Unit {0}) (λ r. length r.1.now < length line.now) }
{
    if let Some(rest) = after_text(line, b"0.")
        && let Some((n, rest)) = number(rest, GREATEST)
        && n > 0
        && let Some(rest) = after_text(rest, b".0>")
    {
        return Some((n, rest));
    }
    None
}
