// The texts of terms of each kind.
ghost use Rattle.std.specs.Prelude.{◌≡◌, ◌≤◌, length};
ghost use Rattle.ladder_tests.specs.Bench.{AreTerms, IsBench, shared_of};

use crate::ladder::{WORDS, named, whole};
use crate::limits::put_times;
use crate::rungs::ROLLS;
use crate::steps::Step::{
    Atom, Bytes, Cons, Fun, Int, Map, Nil, Part, Pid, Piece, Ref, Rising, Shared, Tuple,
};
use crate::steps::{Step, put_all};
use arrayvec::ArrayVec;
use atom_names::AtomNames;
use line_io::MemSink;
use std::alloc::Global;
use std::test::Fail;
use term_print::print;
use term_walk::{Measured, measure};
use word_mem::WordMem;

// The most bytes of a text here.
const ROOM: usize = 2_048;

// The steps of a term, or of the parts of a list and of its last tail; and the text.
type Row = (&'static [Step], &'static [u8]);

const INTEGERS: [Row; 13] = [
    // integers, at the ends of the small ones and of one digit and two
    (&[Int(0)], b"0"),
    (&[Int(-1)], b"-1"),
    (&[Int(576_460_752_303_423_487)], b"576460752303423487"),
    (&[Int(-576_460_752_303_423_487)], b"-576460752303423487"),
    (&[Int(-576_460_752_303_423_488)], b"-576460752303423488"),
    (&[Int(576_460_752_303_423_488)], b"576460752303423488"),
    (&[Int(-576_460_752_303_423_489)], b"-576460752303423489"),
    (&[Int(18_446_744_073_709_551_615)], b"18446744073709551615"),
    (
        &[Int(-18_446_744_073_709_551_615)],
        b"-18446744073709551615",
    ),
    (&[Int(18_446_744_073_709_551_616)], b"18446744073709551616"),
    (
        &[Int(-18_446_744_073_709_551_616)],
        b"-18446744073709551616",
    ),
    (
        &[Int(170_141_183_460_469_231_731_687_303_715_884_105_727)],
        b"170141183460469231731687303715884105727",
    ),
    (
        &[Int(-170_141_183_460_469_231_731_687_303_715_884_105_727)],
        b"-170141183460469231731687303715884105727",
    ),
];

const LISTS: [Row; 8] = [
    // atoms, of one byte and of 63
    (&[Atom(1)], b"a"),
    (
        &[Atom(4)],
        b"the_longest_name_of_an_atom_has_as_many_bytes_as_there_are_here",
    ),
    // proper lists
    (&[Nil], b"[]"),
    (&[Nil, Nil], b"[[]]"),
    (&[Int(1), Int(2), Nil], b"[1,2]"),
    (
        &[Atom(1), Atom(0), Atom(2), Cons, Atom(3), Nil],
        b"[a,[b|ab],aa]",
    ),
    (
        &[Int(-1), Int(-20), Atom(1), Int(300), Int(4), Nil],
        b"[-1,-20,a,300,4]",
    ),
    (
        &[Int(1), Int(576_460_752_303_423_488), Int(2), Nil],
        b"[1,576460752303423488,2]",
    ),
];

const TAILS: [Row; 15] = [
    // last tails
    (&[Int(1), Int(2), Atom(0)], b"[1,2|b]"),
    (&[Int(1), Int(2), Int(3), Int(4)], b"[1,2,3|4]"),
    (&[Int(1), Int(-5)], b"[1|-5]"),
    (
        &[
            Int(1),
            Int(-170_141_183_460_469_231_731_687_303_715_884_105_727),
        ],
        b"[1|-170141183460469231731687303715884105727]",
    ),
    (&[Int(1), Tuple(0)], b"[1|{}]"),
    (&[Int(1), Int(2), Tuple(1)], b"[1|{2}]"),
    (&[Int(1), Map(0)], b"[1|#{}]"),
    (&[Int(1), Atom(1), Int(2), Rising(1)], b"[1|#{a=>2}]"),
    (&[Int(1), Bytes(&[])], b"[1|<<>>]"),
    (&[Int(1), Shared(1)], b"[1|<<7,7,7>>]"),
    (&[Int(1), Part(&[0, 1, 2, 3], 1, 2)], b"[1|<<1,2>>]"),
    (&[Int(1), Pid(2)], b"[1|<0.2.0>]"),
    (&[Int(1), Ref(1, 2)], b"[1|#Ref<0.1.2>]"),
    (&[Int(1), Fun(0, 2, 1, 0)], b"[1|#Fun<b/2>]"),
    (
        &[
            Int(1),
            Int(2),
            Tuple(1),
            Cons,
            Tuple(1),
            Int(3),
            Nil,
            Cons,
            Tuple(1),
        ],
        b"[{[1|{2}]}|{[3]}]",
    ),
];

const PARTED: [Row; 5] = [
    // tuples and maps
    (&[Tuple(0)], b"{}"),
    (
        &[Int(1), Int(2), Tuple(1), Int(3), Nil, Cons, Tuple(3)],
        b"{1,{2},[3]}",
    ),
    (&[Map(0)], b"#{}"),
    (
        &[Atom(0), Atom(1), Atom(3), Int(3), Int(1), Int(2), Map(3)],
        b"#{a=>1,aa=>2,b=>3}",
    ),
    (
        &[
            Int(1),
            Int(3),
            Nil,
            Cons,
            Int(2),
            Tuple(1),
            Rising(0),
            Rising(2),
        ],
        b"#{1=>{2},[3]=>#{}}",
    ),
];

const BINARIES: [Row; 8] = [
    // binaries, wherever their bytes lie
    (&[Bytes(&[])], b"<<>>"),
    (&[Bytes(&[0])], b"<<0>>"),
    (&[Bytes(&[1, 2])], b"<<1,2>>"),
    (
        &[Bytes(&[9, 10, 99, 100, 199, 200, 249, 250, 255])],
        b"<<9,10,99,100,199,200,249,250,255>>",
    ),
    (
        &[Part(&[1, 2, 3, 4, 5, 6, 7, 8, 9, 10, 11], 6, 4)],
        b"<<7,8,9,10>>",
    ),
    (
        &[Shared(3)],
        b"<<7,7,7,7,7,7,7,7,7,7,7,7,7,7,7,7,7,7,7,7,7,7,7,7,7,7,7,7,7,7,7,7,7,7,7,7,7,7,7,7,7,7,7,7,7,7,7,7,7,7,7,7,7,7,7,7,7,7,7,7,7,7,7,7,7>>",
    ),
    (&[Piece(3, 60, 5)], b"<<7,7,7,7,7>>"),
    (&[Piece(3, 65, 0)], b"<<>>"),
];

const OTHERS: [Row; 7] = [
    // pids, references, and funs without what their places have
    (&[Pid(0)], b"<0.0.0>"),
    (&[Pid(2_199_023_255_551)], b"<0.2199023255551.0>"),
    (&[Ref(0, 1)], b"#Ref<0.0.1>"),
    (
        &[Ref(18_446_744_073_709_551_615, 18_446_744_073_709_551_614)],
        b"#Ref<0.18446744073709551615.18446744073709551614>",
    ),
    (&[Fun(1, 0, 1, 0)], b"#Fun<a/0>"),
    (&[Int(1), Nil, Fun(3, 255, 2, 2)], b"#Fun<aa/255>"),
    // more small integers than are gathered at once
    (
        &[
            Int(100_000_000_000_000_000),
            Int(107_310_042_118_555_801),
            Int(114_620_084_237_111_602),
            Int(121_930_126_355_667_403),
            Int(129_240_168_474_223_204),
            Int(136_550_210_592_779_005),
            Int(143_860_252_711_334_806),
            Int(151_170_294_829_890_607),
            Int(158_480_336_948_446_408),
            Int(165_790_379_067_002_209),
            Int(173_100_421_185_558_010),
            Int(180_410_463_304_113_811),
            Int(187_720_505_422_669_612),
            Int(195_030_547_541_225_413),
            Int(202_340_589_659_781_214),
            Int(209_650_631_778_337_015),
            Int(216_960_673_896_892_816),
            Int(224_270_716_015_448_617),
            Int(231_580_758_134_004_418),
            Int(238_890_800_252_560_219),
            Int(246_200_842_371_116_020),
            Int(253_510_884_489_671_821),
            Int(260_820_926_608_227_622),
            Int(268_130_968_726_783_423),
            Int(275_441_010_845_339_224),
            Int(282_751_052_963_895_025),
            Int(290_061_095_082_450_826),
            Int(297_371_137_201_006_627),
            Int(304_681_179_319_562_428),
            Int(311_991_221_438_118_229),
            Int(319_301_263_556_674_030),
            Int(326_611_305_675_229_831),
            Int(333_921_347_793_785_632),
            Int(341_231_389_912_341_433),
            Int(348_541_432_030_897_234),
            Int(355_851_474_149_453_035),
            Int(363_161_516_268_008_836),
            Int(370_471_558_386_564_637),
            Int(377_781_600_505_120_438),
            Int(385_091_642_623_676_239),
            Int(392_401_684_742_232_040),
            Int(399_711_726_860_787_841),
            Int(407_021_768_979_343_642),
            Int(414_331_811_097_899_443),
            Int(421_641_853_216_455_244),
            Int(428_951_895_335_011_045),
            Int(436_261_937_453_566_846),
            Int(443_571_979_572_122_647),
            Int(450_882_021_690_678_448),
            Int(458_192_063_809_234_249),
            Int(465_502_105_927_790_050),
            Int(472_812_148_046_345_851),
            Int(480_122_190_164_901_652),
            Int(487_432_232_283_457_453),
            Int(494_742_274_402_013_254),
            Nil,
        ],
        b"[100000000000000000,107310042118555801,114620084237111602,121930126355667403,129\
          240168474223204,136550210592779005,143860252711334806,151170294829890607,1584803\
          36948446408,165790379067002209,173100421185558010,180410463304113811,18772050542\
          2669612,195030547541225413,202340589659781214,209650631778337015,216960673896892\
          816,224270716015448617,231580758134004418,238890800252560219,246200842371116020,\
          253510884489671821,260820926608227622,268130968726783423,275441010845339224,2827\
          51052963895025,290061095082450826,297371137201006627,304681179319562428,31199122\
          1438118229,319301263556674030,326611305675229831,333921347793785632,341231389912\
          341433,348541432030897234,355851474149453035,363161516268008836,3704715583865646\
          37,377781600505120438,385091642623676239,392401684742232040,399711726860787841,4\
          07021768979343642,414331811097899443,421641853216455244,428951895335011045,43626\
          1937453566846,443571979572122647,450882021690678448,458192063809234249,465502105\
          927790050,472812148046345851,480122190164901652,487432232283457453,4947422744020\
          13254]",
    ),
];

// Each table is named in a function of its own: many slices in one body are dear to prove.
fn integer_rows() -> &'static [Row] {
    &INTEGERS
}

fn list_rows() -> &'static [Row] {
    &LISTS
}

fn tail_rows() -> &'static [Row] {
    &TAILS
}

fn parted_rows() -> &'static [Row] {
    &PARTED
}

fn binary_rows() -> &'static [Row] {
    &BINARIES
}

fn other_rows() -> &'static [Row] {
    &OTHERS
}

// Whether of the one term the first n bytes of this text are written to a sink that takes one byte at each call, and fails then.
fn is_cut(
    alloc: Global,
    mem: &WordMem,
    names: &AtomNames,
    words: &[u64],
    text: &[u8],
    n: usize,
) -> Result<bool, Fail>
    requires terms { AreTerms names.now mem.now words.now }
    requires part { n ≤ length text.now }
{
    if words.len() != 1 {
        return Ok(false);
    }
    let Measured::Within(_) = measure(mem, words[0]) else {
        return Ok(false);
    };
    let mut sink = MemSink::new(alloc, ROOM, 1, &[n as u64 + 1])?;
    let all = print(mem, names, words[0], &mut sink).is_ok();
    Ok(all == (n == text.len()) && sink.bytes() == &text[..n])
}

// Whether the one term is written as this text; and of it the bytes before the call that fails.
fn is_written(
    alloc: Global,
    mem: &WordMem,
    names: &AtomNames,
    words: &[u64],
    text: &[u8],
) -> Result<bool, Fail>
    requires { AreTerms names.now mem.now words.now }
{
    for n in 0..text.len() + 1 {
        if !is_cut(alloc, mem, names, words, text, n)? {
            return Ok(false);
        }
    }
    Ok(true)
}

fn says(alloc: Global, steps: &[Step], text: &[u8]) -> Result<bool, Fail> {
    let mut mem = WordMem::new(alloc, WORDS)?;
    let mut room = whole();
    let names = named(alloc)?;
    let mut words = ArrayVec::new();
    if !put_all(&mut mem, &mut room, &names, &ROLLS, &mut words, steps) {
        return Ok(false);
    }
    let before_last = words.len().saturating_sub(1) as u64;
    if !put_times(
        &mut mem,
        &mut room,
        &names,
        &mut words,
        &[Cons],
        before_last,
    ) {
        return Ok(false);
    }
    is_written(alloc, &mem, &names, words.as_slice(), text)
}

// Whether each term of a table has its text.
fn all_say(alloc: Global, rows: &[Row]) -> Result<bool, Fail> {
    for (steps, text) in rows {
        if !says(alloc, steps, text)? {
            return Ok(false);
        }
    }
    Ok(true)
}

#[test]
fn terms_have_their_texts(rt: HostRuntime) -> Result<(), Fail> {
    for rows in [
        integer_rows(),
        list_rows(),
        tail_rows(),
        parted_rows(),
        binary_rows(),
        other_rows(),
    ] {
        assert!(rt; all_say(rt.alloc(), rows)?);
    }
    Ok(())
}
