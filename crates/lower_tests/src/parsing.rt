// Lines are read, refused as faults of syntax, or refused for their names, and what was read is left as items.
ghost use Rattle.std.specs.Prelude.{◌≡◌, ◌≤◌, length};

use crate::names::numbers_hold;
use atom_names::{AtomNames, LONGEST_NAME, MOST_NAMES};
use plain_term::Item;
use script_grammar::{Command, LEVELS, MOST_HELD, Refusal, Verb};
use script_parse::{Code, MOST_ITEMS, parse};
use std::alloc::{AllocError, Global};

// What a line is answered.
#[derive(Clone, Copy)]
pub(crate) enum Answer {
    Read,
    // A `set` of register 3 of process 1, or a `fun` into it with the name of number 4 and two arguments.
    IntoThree,
    Syntax,
    Atoms,
}

fn is_into_three(command: Command) -> bool {
    match command {
        Command::Process(1, Verb::Set(r)) => r.0 == 3,
        Command::Process(1, Verb::Fun(r, name, arity)) => r.0 == 3 && name == 4 && arity == 2,
        _ => false,
    }
}

fn answers(line: &[u8], want: Answer, names: &mut AtomNames, code: &mut Code) -> bool {
    if line.len() > MOST_ITEMS {
        return false;
    }
    match (parse(line, names, code), want) {
        (Ok(_), Answer::Read)
        | (Err(Refusal::Syntax), Answer::Syntax)
        | (Err(Refusal::Atoms), Answer::Atoms) => true,
        (Ok(command), Answer::IntoThree) => is_into_three(command),
        _ => false,
    }
}

// Lines that are read, one a row: nothing, or one command. A blank at the end of a row is written `\x20`.
const READ: &[u8] = b"
 \t\x20
% any \x00\xff bytes
 \t% too
1 set 0 1
  1\tset \t 0  [1 , 2] \x20
1 set 0 {1,[2]}
1 set 0 { }
1 set 0 [ ]
1 set 0 0
1 set 0 -1
1 set 0 <0.1.0>
1 set 0 a@_Z9
1 set 15 a
0 exit
1 print 0
1 push 0
1 pop 1
2 self 0
1 exit
sys spawn
 sys  procs\x20
sys quit
1 gc minor
1  gc\tmajor\x20
sys sweep
1099511627775 exit
1 set 0 576460752303423488
1 set 0 -576460752303423489
1 set 0 170141183460469231731687303715884105727
1 set 0 -170141183460469231731687303715884105727
1 set 0 <0.1099511627775.0>
1 set 0 $0
1 set 0 { $15 , $9 }
1 set 0 [a|b]
1 set 0 [ a , b | [ c ] ]
1 set 0 [1|[]]
1 set 0 #{}
1 set 0 #{ }
1 set 0 #{a=>1}
1 set 0 #{ a => 1 , #{ } => [b|c] , $0=>$0 }
1 hd 0 1
1 tl 15 0
1 elem 0 1099511627775 1
1 mapget 0 1 2
1 mapput 0 1 2 15
1 ref 0
1 mktuple 0 0 1
 1  mklist\t0 65537  1\x20
1 eq 0 1
1 cmp 0 0
1 flat 0
1 set 0 <<>>
1 set 0 << >>
1 set 0 <<0>>
1 set 0 << 1 ,\t255 >>
1 set 0 [<<1>>|<<2>>]
1 set 0 #{<<>>=><<10,100>>}
1 part 0 1 2 1099511627775
1 fill 0 1048577 256
 1\tfill 15  0 0\x20
1 fun 0 f 0
1 fun 0 f 256 $0
1 fun 15  a@B  1  $15\t$0\x20
1 env 0 1 2
sys counts
 sys  counts\x20
1 send 0 0
1 send 0 1
1 send 15 1099511627775
1 send 0 $0
  7\tsend  3 \t $15\x20
1 recv 0
 1  recv\t15\x20
1 queue
 0\tqueue\x20
";

// Lines that are in no grammar, or only in that of what is not built, one a row.
pub(crate) const UNREAD: &[u8] = b"1099511627776 exit
01 exit
+1 exit
-1 exit
1exit
1 exit 0
1 exit % word
1 exitx
1 Exit
1
1\x20
sys
sys\x20
sysspawn
sys spawn 1
Sys spawn
spawn
1 print
1 print 16
1 print 00
1 print 0 0
1 print $0
1 print 0%
1 set 0
1 set 0\x20
1 set 0{1}
1 set 0 1 1
1 set 0 01
1 set 0 -0
1 set 0 -01
1 set 0 - 1
1 set 0 +1
1 set 0 170141183460469231731687303715884105728
1 set 0 -170141183460469231731687303715884105728
1 set 0 340282366920938463463374607431768211457
1 set 0 1701411834604692317316873037158841057270
1 set 0 [|a]
1 set 0 [ | a]
1 set 0 [a|]
1 set 0 [a,|b]
1 set 0 [a|b|c]
1 set 0 [a|b,c]
1 set 0 [a|b
1 set 0 {a|b}
1 set 0 {,}
1 set 0 [,]
1 set 0 [1,]
1 set 0 [1
1 set 0 {1,
1 set 0 [1}
1 set 0 {1]
1 set 0 [1 2]
1 set 0 1]
1 set 0 #{a}
1 set 0 #{a=>}
1 set 0 #{=>a}
1 set 0 #{a= >b}
1 set 0 #{a,b}
1 set 0 #{a=>b,}
1 set 0 #{a=>b=>c}
1 set 0 #{a=>b|c}
1 set 0 #{a=>b
1 set 0 #{a=>b]
1 set 0 # {}
1 set 0 {a=>b}
1 set 0 #[]
1 set 0 <<256>>
1 set 0 <<1000>>
1 set 0 <<1,>>
1 set 0 <<,1>>
1 set 0 <<,>>
1 set 0 <<1 2>>
1 set 0 <<01>>
1 set 0 <<00>>
1 set 0 <<-0>>
1 set 0 <<-1>>
1 set 0 <<a>>
1 set 0 <<$0>>
1 set 0 <<[]>>
1 set 0 <<1|2>>
1 set 0 < <1>>
1 set 0 <<1> >
1 set 0 <<1>
1 set 0 <<1
1 set 0 <<
1 set 0 <<1>>>
1 set 0<<1>>
1 set 0 <<1]
1 set 0 [1>>
1 set 0 <>
1 set 0 <0.0.0>
1 set 0 <0.1.1>
1 set 0 <1.1.0>
1 set 0 <0.01.0>
1 set 0 <0. 1.0>
1 set 0 <0.1099511627776.0>
1 set 0 $16
1 set 0 $00
1 set 0 $01
1 set 0 $ 1
1 set 0 $
1 set 0 $-1
1 set 0 $1 $2
1 set 0 Abc
1 set 0 _a
1 set 0 a-b
1 set 0 \xc3
1 set 0 a\x00
1 hd 0
1 hd 0 1 2
1 tl 0 16
1 elem 0 1
1 elem 0 01 1
1 elem 0 1099511627776 1
1 mapget 0 1
1 mapput 0 1 2
1 mapput 0 1 2 3 4
1 mktuple 0 1
1 mklist 0 a 1
1 eq 0
1 eq $0 $1
1 cmp 0 1 2
1 flat 0 0
1 ref
1 part 0 1 2
1 part 0 1 2 3 4
1 part 0 1 01 1
1 part 0 1 -1 1
1 part 0 16 0 1
1 fill 0 1
1 fill 0 1 2 3
1 fill 0 1 a
1 fill 0 1099511627776 1
1 fun 0 f
1 fun 0 F 0
1 fun 0 f $0
1 fun 0 f 0 0
1 fun 0 f 0 $16
1 fun 0 f 0 $00
1 fun 0 f 0 $0$1
1 fun 0 f 0$0
1 fun 0 f 0 $0,$1
1 fun 0 f 0 $0 a
1 fun 0 f 0 $
1 env 0 1
1 env 0 1 $2
sys counts 0
1 counts
1 lit 0 a 1
1 send
1 send 0
1 send 0\x20
1 send 0 1 2
1 send 0 01
1 send 0 -1
1 send 0 1099511627776
1 send 16 1
1 send $0 1
1 send 0 $16
1 send 0 $00
1 send 0 $
1 send 0 $ 1
1 send 0 $1 $2
1 send 0 a
1 send 0 <0.1.0>
1 send 0$1
1 recv
1 recv 16
1 recv 0 0
1 recv $0
1 queue 0
queue 1
sys queue
1 gc
1 gc 0
1 gc full
1 gcminor
1 gc minormajor
1 gc minor major
sys gc minor
sys sweep 1
";

// How many bytes the first row of a text has.
fn row_len(text: &[u8]) -> usize
    ensures { result ≤ length text.now }
{
    for (n, b) in text.iter().enumerate() {
        if *b == b'\n' {
            return n;
        }
    }
    text.len()
}

// Whether each row of the text is a line that is answered so.
fn all_answer(text: &[u8], want: Answer, names: &mut AtomNames, code: &mut Code) -> bool {
    let mut rest = text;
    for _ in 0..text.len() {
        if rest.is_empty() {
            return true;
        }
        let n = row_len(rest);
        if !answers(&rest[..n], want, names, code) {
            return false;
        }
        if n == rest.len() {
            return true;
        }
        rest = &rest[n..][1..];
    }
    rest.is_empty()
}

// What is asked where no name stands before.
#[derive(Clone, Copy)]
pub(crate) enum Task<'a> {
    // Each row of the text is a line that is answered so.
    Rows(&'a [u8], Answer),
    // A table that is full takes no new name.
    Full,
    // Lines give their items.
    Items,
    // Names have their numbers.
    Numbers,
}

fn holds_over(task: Task, names: &mut AtomNames, code: &mut Code) -> bool {
    match task {
        Task::Rows(text, want) => all_answer(text, want, names, code),
        Task::Full => fill(names) && full_answers(names, code),
        Task::Items => rows_hold(names, code),
        Task::Numbers => numbers_hold(names),
    }
}

pub(crate) fn holds(alloc: Global, task: Task) -> bool {
    let Ok(mut names) = AtomNames::new(alloc) else {
        return false;
    };
    let Ok(mut code) = Code::new(alloc) else {
        return false;
    };
    holds_over(task, &mut names, &mut code)
}

// A line that is made: its beginning, something that is repeated, what stands within, something that is repeated as often, how often,
// and what the line with one more is answered.
#[derive(Clone, Copy)]
struct Made(
    &'static [u8],
    &'static [u8],
    &'static [u8],
    &'static [u8],
    u64,
    Answer,
);

// Lines that are read up to their limits, and not beyond them: terms within levels of one form, an atom, and a fun with registers; and
// binaries of 0, 1, 64, 65 and 1,000 bytes, which have no limit but that of the line.
const LIMITS: [Made; 14] = [
    Made(b"1 set 0 ", b"[", b"b", b"]", LEVELS, Answer::Syntax),
    Made(b"1 set 0 ", b"{", b"b", b"}", LEVELS, Answer::Syntax),
    Made(b"1 set 0 ", b"[a|", b"b", b"]", LEVELS, Answer::Syntax),
    Made(b"1 set 0 ", b"#{a=>", b"b", b"}", LEVELS, Answer::Syntax),
    Made(b"1 set 0 ", b"#{", b"b", b"=>a}", LEVELS, Answer::Syntax),
    Made(
        b"1 set 0 ",
        b"[",
        b"<<1>>",
        b"]",
        LEVELS - 1,
        Answer::Syntax,
    ),
    Made(b"1 set 0 ", b"[", b"<<>>", b"]", LEVELS - 1, Answer::Syntax),
    Made(
        b"1 set 0 ",
        b"a",
        b"",
        b"",
        LONGEST_NAME as u64,
        Answer::Syntax,
    ),
    Made(b"1 fun 0 f 2", b" $15", b"", b"", MOST_HELD, Answer::Syntax),
    Made(b"1 set 0 <<", b"", b">>", b"", 0, Answer::Read),
    Made(b"1 set 0 <<7", b",7", b">>", b"", 1 - 1, Answer::Read),
    Made(b"1 set 0 <<7", b",7", b">>", b"", 64 - 1, Answer::Read),
    Made(b"1 set 0 <<7", b",7", b">>", b"", 65 - 1, Answer::Read),
    Made(b"1 set 0 <<7", b",7", b">>", b"", 1000 - 1, Answer::Read),
];

fn repeat(line: &mut Vec<u8>, part: &[u8], times: u64) -> Result<(), AllocError> {
    for _ in 0..times {
        line.extend_from_slice(part)?;
    }
    Ok(())
}

// Writes the line with so many times more than its limit.
fn put_made(line: &mut Vec<u8>, made: Made, more: u64) -> Result<(), AllocError> {
    let Made(start, opening, inner, closing, limit, _) = made;
    let times = limit.saturating_add(more);
    line.extend_from_slice(start)?;
    repeat(line, opening, times)?;
    line.extend_from_slice(inner)?;
    repeat(line, closing, times)
}

fn made_answers(alloc: Global, made: Made, more: u64, want: Answer) -> bool {
    let mut line = Vec::new(alloc);
    put_made(&mut line, made, more).is_ok() && holds(alloc, Task::Rows(line.as_slice(), want))
}

#[test]
fn limits_are_met(rt: HostRuntime) {
    for made in &LIMITS {
        let Made(.., beyond) = *made;
        assert!(rt;
            made_answers(rt.alloc(), *made, 0, Answer::Read)
                && made_answers(rt.alloc(), *made, 1, beyond)
        );
    }
}

// Lines over a full table, which has the names aaa to ygd, one a row: those whose new names are too many,
const FULL_ATOMS: &[u8] = b"1 set 0 fresh
99 set 0 [aaa,fresh]
1 set 0 [aaa,ygz]
1 fun 0 fresh 0
";

// those that are in no grammar,
const FULL_UNREAD: &[u8] = b"1 set 0 [fresh
1 fun 0 fresh 0 $16
";

// and those that are read.
const FULL_READ: &[u8] = b"1 set 0 [aaa,ygd]
1 set 0 {}
1 fun 0 ygd 300 $1
";

// Whether names of three letters take all numbers.
fn fill(names: &mut AtomNames) -> bool {
    for k in 0..MOST_NAMES as u32 {
        let name = [
            b'a' + (k / 676) as u8,
            b'a' + (k / 26 % 26) as u8,
            b'a' + (k % 26) as u8,
        ];
        if names.intern(&name).is_none() {
            return false;
        }
    }
    true
}

fn full_answers(names: &mut AtomNames, code: &mut Code) -> bool {
    all_answer(FULL_ATOMS, Answer::Atoms, names, code)
        && all_answer(FULL_UNREAD, Answer::Syntax, names, code)
        && all_answer(FULL_READ, Answer::Read, names, code)
        && names.count() == MOST_NAMES as u64
}

// A line, its items, and how many names there are after it, each line after the one before.
struct Row {
    line: &'static [u8],
    items: &'static [Item],
    names: u64,
}

const ROWS: [Row; 7] = [
    Row {
        line: b"1 set 3 {a,[-7,b],<0.2.0>,a}",
        items: &[
            Item::Tuple(4),
            Item::Atom(0),
            Item::Cons,
            Item::Int(-7),
            Item::Cons,
            Item::Atom(1),
            Item::Nil,
            Item::Pid(2),
            Item::Atom(0),
        ],
        names: 2,
    },
    Row {
        line: b"1 set 3 [{ }, [ ]]",
        items: &[Item::Cons, Item::Tuple(0), Item::Cons, Item::Nil, Item::Nil],
        names: 2,
    },
    Row {
        line: b"1 set 3 [c]",
        items: &[Item::Cons, Item::Atom(2), Item::Nil],
        names: 3,
    },
    Row {
        line: b"1 set 3 [$15, 170141183460469231731687303715884105727 | -9223372036854775808]",
        items: &[
            Item::Cons,
            Item::Held(15),
            Item::Cons,
            Item::Int(170_141_183_460_469_231_731_687_303_715_884_105_727),
            Item::Int(-9_223_372_036_854_775_808),
        ],
        names: 3,
    },
    Row {
        line: b"1 set 3 #{d=>[a,b|c], #{ }=>{}, d=>$0}",
        items: &[
            Item::Map(3),
            Item::Atom(3),
            Item::Cons,
            Item::Atom(0),
            Item::Cons,
            Item::Atom(1),
            Item::Atom(2),
            Item::Map(0),
            Item::Tuple(0),
            Item::Atom(3),
            Item::Held(0),
        ],
        names: 4,
    },
    Row {
        line: b"1 set 3 [<<>>, << 0 , 255 >>, {<<7>>}]",
        items: &[
            Item::Cons,
            Item::Bin(0),
            Item::Cons,
            Item::Bin(2),
            Item::Byte(0),
            Item::Byte(255),
            Item::Cons,
            Item::Tuple(1),
            Item::Bin(1),
            Item::Byte(7),
            Item::Nil,
        ],
        names: 4,
    },
    Row {
        line: b"1 fun 3 e 2 $15 $0 $15",
        items: &[Item::Held(15), Item::Held(0), Item::Held(15)],
        names: 5,
    },
];

// An item by its kind and its number.
fn told(item: Item) -> (u8, i128) {
    match item {
        Item::Int(i) => (0, i),
        Item::Atom(k) => (1, i128::from(k)),
        Item::Pid(n) => (2, i128::from(n)),
        Item::Held(r) => (3, i128::from(r)),
        Item::Tuple(n) => (4, i128::from(n)),
        Item::Map(n) => (5, i128::from(n)),
        Item::Bin(n) => (6, i128::from(n)),
        Item::Byte(n) => (7, i128::from(n)),
        Item::Nil => (8, 0),
        Item::Cons => (9, 0),
    }
}

fn same_items(a: &[Item], b: &[Item]) -> bool {
    if a.len() != b.len() {
        return false;
    }
    for (i, item) in a.iter().enumerate() {
        if told(*item) != told(b[i]) {
            return false;
        }
    }
    true
}

fn row_holds(row: &Row, names: &mut AtomNames, code: &mut Code) -> bool {
    answers(row.line, Answer::IntoThree, names, code)
        && same_items(code.items(), row.items)
        && answers(b"1 set 0 [x,y", Answer::Syntax, names, code)
        && names.count() == row.names
}

fn rows_hold(names: &mut AtomNames, code: &mut Code) -> bool {
    for row in &ROWS {
        if !row_holds(row, names, code) {
            return false;
        }
    }
    true
}

#[test]
fn lines_are_read_or_refused(rt: HostRuntime) {
    assert!(rt; holds(rt.alloc(), Task::Rows(READ, Answer::Read)));
    assert!(rt; holds(rt.alloc(), Task::Rows(UNREAD, Answer::Syntax)));
    assert!(rt; holds(rt.alloc(), Task::Full));
    assert!(rt; holds(rt.alloc(), Task::Items));
}
