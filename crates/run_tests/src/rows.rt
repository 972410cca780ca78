// Short scripts.
pub(crate) const ROWS: &[u8] = b"
~ a term is written and printed
1 set 0 {1,[2]}
1 print 0
~
ok
{1,[2]}
~ no line
~
~ a process that does not live
2 print 0
~
error noproc
~ each built verb
1 set 0 a
1 push 0
1 pop 1
1 print 1
1 pop 1
sys spawn
2 self 0
2 print 0
1 exit
sys procs
~
ok
ok
ok
a
error empty
ok 2
ok
<0.2.0>
ok
[2]
~ signs and zeros
1 set 0 -0
1 set 0 01
1 set 0 -1
1 print 0
~
error syntax
error syntax
ok
-1
~ the ends of small integers and of all integers
1 set 0 576460752303423487
1 flat 0
1 set 0 576460752303423488
1 flat 0
1 print 0
1 set 0 170141183460469231731687303715884105728
1 print 0
1 set 0 -170141183460469231731687303715884105727
1 flat 0
1 print 0
~
ok
0
ok
2
576460752303423488
error syntax
576460752303423488
ok
3
-170141183460469231731687303715884105727
~ blanks
 \t1  set\t0 { 1 , [ 2 ,3] } \t
\t1 print 0
~
ok
{1,[2,3]}
~ blanks that are missing
1set 0 1
1 set0 1
1 set 01
1 set 0{}
1 set 0 1 2
~
error syntax
error syntax
error syntax
error syntax
error syntax
~ commas and brackets that do not fit
1 set 0 [1,]
1 set 0 [,1]
1 set 0 {,}
1 set 0 [1}
1 set 0 []]
~
error syntax
error syntax
error syntax
error syntax
error syntax
~ blanks in empty forms
1 set 0 [ ]
1 print 0
1 set 0 { }
1 print 0
~
ok
[]
ok
{}
~ a byte 13 before the line end
1 print 0\r
1 print 0\r\r
1\r print 0
~
[]
error syntax
error syntax
~ comments and blank lines
% a comment \x00\xff

 \t
  % another
1 print 0 % not one
~
error syntax
~ bytes that are no text
1 set 0 a\x00
1 print\x000
1 set 0 \x80
~
error syntax
error syntax
error syntax
~ atoms
1 set 15 [a,b@c,d_1,eF]
1 print 15
1 set 0 Abc
~
ok
[a,b@c,d_1,eF]
error syntax
~ pids
1 set 0 <0.1.0>
1 set 1 <0.0.0>
1 set 1 <0.1.1>
1 print 0
~
ok
error syntax
error syntax
<0.1.0>
~ nothing after sys quit
sys quit
1 print 0
~
ok
~ numbers of processes are not used again
sys spawn
1 exit
sys spawn
sys procs
1 push 0
~
ok 2
ok
ok 3
[2,3]
error noproc
~ no process is left
1 exit
sys procs
sys spawn
~
ok
[]
ok 2
~ the stack keeps its terms
1 set 0 {a,b}
1 push 0
1 push 0
1 set 0 c
1 push 0
1 pop 1
1 print 1
1 pop 1
1 pop 2
1 print 2
~
ok
ok
ok
ok
ok
ok
c
ok
ok
{a,b}
~ a refused line brings no name
99 set 0 fresh
1 set 0 a
1 print 0
~
error noproc
ok
a
~ verbs and forms that are not built
1 lit 0 a 1
sys load a 1
sys purge a
1 hibernate
1 info
1 heap
sys dump
1 frob 0
~
error syntax
error syntax
error syntax
error syntax
error syntax
error syntax
error syntax
error syntax
~ collections keep the terms of registers and stacks
sys spawn
1 set 0 {a,[1,2]}
1 push 0
2 set 5 [x]
2 push 5
2 push 5
1 set 0 []
1 gc minor
2 gc major
sys sweep
1 pop 3
1 print 3
2 pop 1
2 print 1
2 pop 1
2 print 5
2 pop 1
~
ok 2
ok
ok
ok
ok
ok
ok
ok
ok
ok
ok
{a,[1,2]}
ok
[x]
ok
[x]
error empty
~ collections that are not written so
2 gc minor
1 gc
1 gc minors
sys sweep 1
~
error noproc
error syntax
error syntax
error syntax
~ the greatest number of a process
1099511627775 print 0
1099511627776 print 0
~
error noproc
error syntax
~ empty terms inside one another
1 set 0 {{},[],[[]],{[]}}
1 print 0
~
ok
{{},[],[[]],{[]}}
";
