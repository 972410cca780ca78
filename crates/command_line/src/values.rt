// The values of the options.
ghost use Rattle.std.specs.Prelude.{◌≡◌, ◌&&◌, option_map, nat_le};
ghost use Rattle.std.specs.Str.{all_ascii_digits};
ghost use Rattle.command_line.specs.Values.{option_number, is_arena, arena_asked, space_asked, number_asked};

/// The words of the smallest arena.
pub const SMALLEST_ARENA: u64 = 4_096;

/// The words of the largest arena: 128 MB.
pub const LARGEST_ARENA: u64 = 16_777_216;

/// The words of an arena that nothing was asked for.
pub const USUAL_ARENA: u64 = 1_048_576;

/// Every byte is a decimal digit.
fn has_digits_alone(text: &[u8]) -> bool
    ensures { result ≡ all_ascii_digits text.now }
{
    for byte in text {
        if !byte.is_ascii_digit() {
            return false;
        }
    }
    true
}

/// The number that decimal digits write, leading zeros allowed. `None` where there is no digit, where another byte
/// stands, and where the number is 2^64 or more.
fn number_of(text: &str) -> Option<u64>
    ensures { result ≡ option_number text.now }
{
    if !has_digits_alone(text.as_bytes()) {
        return None;
    }
    text.parse().ok()
}

/// An arena may have so many words.
fn is_arena(words: u64) -> bool
    ensures { result ≡ is_arena words }
{
    words % 2 == 0 && SMALLEST_ARENA <= words && words <= LARGEST_ARENA
}

/// The words of the arena by the value of `--arena`, if it has one. `None` where the value is no arena.
pub(crate) fn arena_asked(value: Option<&str>) -> Option<u64>
    ensures { result ≡ arena_asked (option_map (λ v. v.now) value.entry) }
{
    let Some(text) = value else {
        return Some(USUAL_ARENA);
    };
    let words = number_of(text)?;
    if is_arena(words) { Some(words) } else { None }
}

/// The value of `--space`, if it has one, names a space that there is.
pub(crate) fn is_space(value: Option<&str>) -> bool
    ensures { result ≡ space_asked (option_map (λ v. v.now) value.entry) }
{
    match value {
        Some(text) => text == "one",
        None => true,
    }
}

/// The number to make the script from, if `--gen` has a value. `None` where the value is no number.
pub(crate) fn number_asked(value: Option<&str>) -> Option<Option<u64>>
    ensures { result ≡ number_asked (option_map (λ v. v.now) value.entry) }
{
    let Some(text) = value else {
        return Some(None);
    };
    let number = number_of(text)?;
    Some(Some(number))
}
