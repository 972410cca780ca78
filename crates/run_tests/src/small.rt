// Scripts over an arena of 4,096 words, after which there is no name.
pub(crate) const ROWS: &[u8] = b"
~ lists of 700 ones ask for 1,400 words: a second one is too many as long as the first lives
1 set 0 [1^,1^699^]
1 set 1 [1^,1^699^]
1 set 0 []
1 set 1 [1^,1^699^]
~
ok
error nospace 1400
ok
ok
~ many places: of a second list there is no space as long as the first lives, and a longer one is none at all
1 mklist 0 600 1
1 mklist 2 1000 1
1 flat 0
1 print 2
1 mapput 2 0 0 0
1 mktuple 0 2046 1
1 mktuple 0 65537 1
~
ok
error nospace 2000
1200
[]
error badarg
error nospace 2047
error badarg
~ four processes make lists of 200 words in turn, forty times, and none is refused: what was dropped is used again
^sys spawn
^3^^1 mklist 0 100 1
2 mklist 0 100 1
3 mklist 0 100 1
4 mklist 0 100 1
^40^~
ok 2
ok 3
ok 4
^ok
^160^~ five words are free, then three, then none: what is refused for them leaves all as it was, and stands before the keys of a map and behind what is no map
1 mktuple 0 2040 1
sys spawn
1 set 4 #{a=>1,a=>2}
1 set 4 #{!?=>0,!1!33!33=>0}
1 push 0
1 ref 1
1 ref 2
1 set 3 #{}
1 mapput 3 0 1 1
1 pop 5
1 set 0 []
1 set 5 []
1 ref 2
1 print 2
1 set 3 #{}
1 mktuple 0 2030 1
1 mapput 3 3 1 1
1 print 3
~
ok
error nospace 16
error nospace 8
error nospace 70
ok
ok
error nospace 3
error nospace 4
error badarg
ok
ok
ok
ok
#Ref<0.1.2>
ok
ok
error nospace 6
#{}
~ eleven words are free, then six, then one: what is refused for binaries and funs leaves all as it was, and stands behind what is no part
1 fill 0 16384 1
1 fill 0 1048577 1
1 fill 1 16200 1
1 part 2 1 0 1
1 fun 3 f 0
1 fun 3 f 256
1 part 3 1 0 16201
1 part 3 1 0 2
1 part 4 1 0 3
1 set 4 <<1>>
1 fill 4 2 3
sys counts
1 print 3
1 set 1 []
1 set 2 []
1 set 3 []
1 fill 0 16200 2
sys sweep
sys counts
~
error nospace 2058
error badarg
ok
ok
error nospace 10
error badarg
error badarg
ok
error nospace 5
error nospace 3
error nospace 3
bins [1:1] funs []
<<1,1>>
ok
ok
ok
ok
ok
bins [2:1] funs []
~ a message asks for eight words and its flat size, whatever is shared in it, and one to a process that does not live for none
1 mktuple 0 600 1
1 set 0 {$0,$0}
1 send 0 1
1 send 0 1
1 send 0 9
1 recv 1
1 set 1 []
1 send 0 1
1 flat 0
~
ok
ok
ok
error nospace 1213
ok
ok
ok
ok
1205
";

// The same with one name after them.
pub(crate) const NAMING: &[u8] = b"
~ maps that are refused for their keys bring no name
1 set 1 #{!a?=>1,!1!10!!b?=>1,!1!10!!c?=>1,!1!10!!d?=>1,!1!6!d6=>1}
^1 set 0 {$0,$0}
^25^1 set 1 #{$0=>fresh}
1 set 1 z1
1 print 1
~
error mapsize
^ok
^25^error big
ok
z1
";
