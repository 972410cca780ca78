// The numbers of texts, as another program computed them.
use line_io::{SumSink, put_all};

// Texts that are written one after the other, and the lines, errors, bytes and sum of all of them.
const ROWS: [(&[&[u8]], [u64; 4]); 7] = [
    (&[], [0, 0, 0, 7]),
    (&[b"ok\n"], [1, 0, 3, 318_535]),
    (&[b"ok\n", b"error badarg\n"], [2, 1, 16, 313_997_050]),
    (&[b"err", b"or "], [0, 1, 6, 622_923_231]),
    (&[b" error \nerror"], [1, 0, 13, 1_554_143_439]),
    (&[b"error\nerror "], [1, 1, 12, 4_110_238_241]),
    (&[b"ererror \n", b"error \n"], [2, 1, 16, 2_381_051_828]),
];

fn sums_to(texts: &[&[u8]], numbers: &[u64; 4]) -> bool {
    let mut sink = SumSink::new();
    let mut all = true;
    for text in texts {
        all &= put_all(&mut sink, text).is_ok();
    }
    let found = sink.summary();
    all & ([found.lines, found.errors, found.bytes, found.sum] == *numbers)
}

#[test]
fn texts_have_their_numbers(rt: HostRuntime) {
    for (texts, numbers) in &ROWS {
        assert!(rt; sums_to(texts, numbers));
    }
}
