// Short scripts of the verbs on terms.
pub(crate) const ROWS: &[u8] = b"
~ registers in written terms
1 set 0 {}
1 set 1 [$0]
1 set 2 [$0]
1 gc major
1 eq 1 2
1 print 1
~
ok
ok
ok
ok
true
[{}]
~ a register that is written is read before
1 set 0 a
1 set 0 {$0,[$0|$0]}
1 print 0
~
ok
ok
{a,[a|a]}
~ a list with a last tail, and references
1 ref 0
1 ref 1
1 cmp 0 1
1 print 1
1 self 2
1 cmp 1 2
1 set 3 [1,2|x]
1 print 3
1 tl 4 3
1 print 4
~
ok
ok
lt
#Ref<0.1.2>
ok
lt
ok
[1,2|x]
ok
[2|x]
~ references of each process
sys spawn
1 ref 0
2 ref 0
2 ref 1
1 gc major
2 print 0
2 print 1
1 ref 1
1 print 1
~
ok 2
ok
ok
ok
ok
#Ref<0.2.1>
#Ref<0.2.2>
ok
#Ref<0.1.2>
~ of two equal keys the later pair stands
1 set 0 #{b=>1,a=>2,b=>3}
1 print 0
1 set 2 33
1 mapget 3 0 2
1 set 2 b
1 mapget 3 0 2
1 print 3
~
ok
#{a=>2,b=>3}
ok
error badarg
ok
ok
3
~ a map has at most 32 keys
1 set 1 #{!?=>0,!1!32!32=>0}
1 set 2 33
1 mapput 3 1 2 2
1 set 4 #{!?=>0,!1!33!33=>0}
1 set 2 32
1 mapput 3 1 2 2
1 mapget 5 3 2
1 print 5
1 print 4
~
ok
ok
error mapsize
error mapsize
ok
ok
ok
32
[]
~ a map with a pair more
1 set 0 #{a=>1,c=>3}
1 set 1 b
1 set 2 2
1 mapput 3 0 1 2
1 print 3
1 print 0
1 mapput 3 3 1 1
1 print 3
1 set 1 #{}
1 mapput 4 1 2 2
1 print 4
~
ok
ok
ok
ok
#{a=>1,b=>2,c=>3}
#{a=>1,c=>3}
ok
#{a=>1,b=>b,c=>3}
ok
ok
#{2=>2}
~ each part of a term
1 set 0 {a,[b|c],#{d=>e}}
1 elem 1 1 0
1 print 1
1 elem 1 2 0
1 hd 2 1
1 print 2
1 tl 2 1
1 print 2
1 elem 1 3 0
1 set 3 d
1 mapget 2 1 3
1 print 2
~
ok
ok
a
ok
ok
b
ok
c
ok
ok
ok
e
~ no part
1 set 0 {a}
1 hd 1 0
1 tl 1 0
1 elem 1 0 0
1 elem 1 2 0
1 elem 1 1 2
1 mapget 1 0 0
1 hd 1 2
1 mapput 1 0 0 0
1 print 1
~
ok
error badarg
error badarg
error badarg
error badarg
error badarg
error badarg
error badarg
error badarg
[]
~ many places
1 set 0 x
1 mktuple 1 3 0
1 print 1
1 mklist 1 2 0
1 print 1
1 mktuple 1 0 0
1 print 1
1 mklist 1 0 0
1 print 1
1 mktuple 1 65537 0
1 mklist 1 65537 0
1 mktuple 1 65536 0
1 flat 1
1 mklist 1 65536 0
1 flat 1
~
ok
ok
{x,x,x}
ok
[x,x]
ok
{}
ok
[]
error badarg
error badarg
ok
65537
ok
131072
~ the order of terms
1 set 0 1
1 set 1 a
1 cmp 0 1
1 cmp 1 0
1 cmp 0 0
1 eq 0 1
1 eq 0 0
1 set 2 [1,2]
1 set 3 [1|[2]]
1 eq 2 3
1 cmp 2 3
1 set 2 {9}
1 set 3 {1,1}
1 cmp 2 3
~
ok
ok
lt
gt
eq
false
true
ok
ok
true
eq
ok
ok
lt
~ verbs at a process that does not live
9 hd 0 0
9 elem 0 1 0
9 mapget 0 0 0
9 mapput 0 0 0 0
9 ref 0
9 mktuple 0 70000 0
9 mklist 0 1 0
9 eq 0 0
9 cmp 0 0
9 flat 0
~
error noproc
error noproc
error noproc
error noproc
error noproc
error noproc
error noproc
error noproc
error noproc
error noproc
~ a collection keeps what is shared
1 set 0 {a,b}
1 set 1 {$0,$0}
1 gc major
1 flat 1
1 print 1
sys sweep
1 elem 2 2 1
1 eq 2 0
~
ok
ok
ok
9
{{a,b},{a,b}}
ok
ok
true
~ forms that do not fit
1 set 0 [|a]
1 set 0 [a|]
1 set 0 [a|b|c]
1 set 0 {a|b}
1 set 0 $16
1 set 0 $
1 set 0 #{a}
1 set 0 #{a=>}
1 set 0 #{a=>1|b}
1 set 0 #{ }
1 print 0
~
error syntax
error syntax
error syntax
error syntax
error syntax
error syntax
error syntax
error syntax
error syntax
ok
#{}
";
