// Short scripts of binaries, funs and their counts.
pub(crate) const ROWS: &[u8] = b"
~ up to 64 bytes stand with the term, more in a record
1 fill 0 64 1
1 fill 1 65 1
1 flat 0
1 flat 1
sys sweep
sys counts
~
ok
ok
10
6
ok
bins [1:1] funs []
~ a part keeps its base, and a part of a part has the same
1 fill 0 100 9
1 part 1 0 98 2
1 set 0 []
sys sweep
sys counts
1 print 1
1 flat 1
1 part 2 1 1 2
1 part 2 1 1 1
1 flat 2
1 print 2
~
ok
ok
ok
ok
bins [1:1] funs []
<<9,9>>
11
error badarg
ok
11
<<9>>
~ a fun, its environment, its count
1 fun 0 f 2 $0 $1
1 print 0
1 flat 0
1 env 1 2 0
1 env 1 3 0
1 fun 2 g 256
sys sweep
sys counts
~
ok
#Fun<f/2>
8
ok
error badarg
error badarg
ok
bins [] funs [f/2:1]
~ the limits of what is filled and of a part
1 fill 0 1048577 1
1 fill 0 65 256
1 fill 0 65 255
1 part 1 0 65 0
1 print 1
1 part 1 0 64 2
~
error badarg
error badarg
ok
ok
<<>>
error badarg
~ written binaries, equal by their bytes wherever these stand
1 set 0 <<7^,7^63^>>
1 set 1 <<7^,7^64^>>
1 fill 2 65 7
1 eq 1 2
1 cmp 0 1
1 part 3 2 0 64
1 eq 0 3
sys counts
1 set 4 <<1, 255 ,0>>
1 print 4
1 set 4 << >>
1 flat 4
~
ok
ok
ok
true
lt
ok
true
bins [1:1,2:1] funs []
ok
<<1,255,0>>
ok
2
~ ids go from left to right, and a register adds no holder
1 set 0 {<<7^,7^64^>>,[<<7^,7^64^>>]}
1 set 1 {$0,$0}
sys sweep
sys counts
1 elem 2 2 0
1 hd 3 2
1 set 0 []
1 set 1 []
1 set 2 []
sys sweep
sys counts
~
ok
ok
ok
bins [1:1,2:1] funs []
ok
ok
ok
ok
ok
ok
bins [2:1] funs []
~ a refused term gives back its records and takes no id
1 set 0 #{!?=>0,!1!32!32=>0,33=><<7^,7^64^>>}
sys counts
1 fill 1 65 1
sys sweep
sys counts
~
error mapsize
bins [] funs []
ok
ok
bins [1:1] funs []
~ a key that is a long binary, written twice
1 set 0 #{<<7^,7^64^>>=>a,<<7^,7^64^>>=>b}
1 fill 1 65 7
1 mapget 2 0 1
1 print 2
1 set 1 []
sys sweep
sys counts
~
ok
ok
ok
b
ok
ok
bins [2:1] funs []
~ funs in the order of their names and then arities, each counted
1 fun 0 b 1
1 fun 1 a 2
1 fun 2 a 1 $0
1 fun 3 ab 0 $1
1 fun 4 b 1
sys counts
1 set 0 []
1 set 2 []
1 set 4 []
sys sweep
sys counts
~
ok
ok
ok
ok
ok
bins [] funs [a/1:1,a/2:1,ab/0:1,b/1:2]
ok
ok
ok
ok
bins [] funs [a/2:1,ab/0:1]
~ counts fall where a process ends or a stack loses its terms
sys spawn
2 fill 0 65 1
2 push 0
1 fun 0 f 0
1 push 0
1 set 0 []
sys sweep
sys counts
1 pop 0
1 set 0 []
2 exit
sys counts
sys sweep
sys counts
~
ok 2
ok
ok
ok
ok
ok
ok
bins [1:1] funs [f/0:1]
ok
ok
ok
bins [1:1] funs [f/0:1]
ok
bins [] funs []
~ an accepted line that changes something ends what was swept; a refused line and a printing line do not
1 fill 0 65 1
sys sweep
1 pop 1
sys counts
1 print 1
sys counts
1 set 0 []
sys counts
~
ok
ok
error empty
bins [1:1] funs []
[]
bins [1:1] funs []
ok
bins [1:1] funs []
~ what no part, no place and no binary is
1 part 1 0 0 0
1 set 0 <<1,2>>
1 part 1 0 2 1
1 part 1 0 3 0
1 part 1 0 2 0
1 env 1 1 0
1 fun 2 f 0
1 env 1 0 2
1 env 1 1 2
1 part 1 2 0 0
1 print 1
~
error badarg
ok
error badarg
error badarg
ok
error badarg
ok
error badarg
error badarg
error badarg
<<>>
~ refusals of processes that do not live stand first
9 fill 0 1048577 1
9 part 0 0 0 0
9 fun 0 f 256
9 env 0 1 0
~
error noproc
error noproc
error noproc
error noproc
~ lines that do not fit
1 fill 0 1
1 part 0 0 1
1 fun 0 2 f
1 fun 0 f 2 3
1 env 0 $1 0
sys counts 1
1 set 0 <<256>>
1 set 0 <<1,>>
1 set 0 <<01>>
1 set 0 <<a>>
~
error syntax
error syntax
error syntax
error syntax
error syntax
error syntax
error syntax
error syntax
error syntax
error syntax
";
