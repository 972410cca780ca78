// Texts that are too long to be written out: what is repeated stands once, between marks, with how often behind it.
use crate::cuts::cut;
use itoa::Buffer;
use std::alloc::Global;

// The number that these digits say.
fn number_of(digits: &[u8]) -> u64 {
    let mut number = 0u64;
    for digit in digits {
        number = number
            .saturating_mul(10)
            .saturating_add(u64::from(digit.saturating_sub(b'0')));
    }
    number
}

// A text that is written out, and whether memory was short for a part of it.
#[derive(Drop)]
pub(crate) struct Whole {
    pub(crate) bytes: Vec<u8>,
    pub(crate) short: bool,
}

impl Whole {
    // Appends bytes.
    fn push(&mut self, bytes: &[u8]) {
        if self.bytes.extend_from_slice(bytes).is_err() {
            self.short = true;
        }
    }

    // Appends a text in which `^ab^3^` stands for `ababab`.
    fn push_repeated(&mut self, text: &[u8]) {
        let mut rest = text;
        for _ in 0..text.len() {
            let (once, behind) = cut(rest, b'^');
            let (bytes, behind) = cut(behind, b'^');
            let (times, others) = cut(behind, b'^');
            self.push(once);
            for _ in 0..number_of(times) {
                self.push(bytes);
            }
            rest = others;
        }
    }

    // The same with a number where the text has a `?`.
    fn push_numbered(&mut self, text: &[u8], number: u64) {
        let (before, behind) = cut(text, b'?');
        self.push_repeated(before);
        if before.len() < text.len() {
            let mut buffer = Buffer::new();
            self.push(buffer.format(number).as_bytes());
        }
        self.push_repeated(behind);
    }
}

// The whole of a text in which also `!a?b!1!4!` stands for `a1ba2ba3b`.
pub(crate) fn whole_of(alloc: Global, text: &[u8]) -> Whole {
    let mut whole = Whole {
        bytes: Vec::new(alloc),
        short: false,
    };
    let mut rest = text;
    for _ in 0..text.len() {
        let (once, behind) = cut(rest, b'!');
        let (block, behind) = cut(behind, b'!');
        let (first, behind) = cut(behind, b'!');
        let (past, others) = cut(behind, b'!');
        whole.push_repeated(once);
        for number in number_of(first)..number_of(past) {
            whole.push_numbered(block, number);
        }
        rest = others;
    }
    whole
}

// A text with repeats, and the whole of it.
const REPEATED: &[u8] = b"w^ab^3^x!^c^2^?d!9!12!y";

const WHOLE: &[u8] = b"wabababxcc9dcc10dcc11dy";

// Whether this text stands for that one.
fn stands_for(alloc: Global, text: &[u8], whole: &[u8]) -> bool {
    let found = whole_of(alloc, text);
    found.bytes.as_slice() == whole && !found.short
}

#[test]
fn repeated_texts_are_whole(rt: HostRuntime) {
    assert!(rt; stands_for(rt.alloc(), REPEATED, WHOLE));
}
