// Scripts at the limits, too long to be written out: `repeats.rt` says how they are written.
pub(crate) const ROWS: &[u8] = b"
~ faulty lines are refused one by one, and the last line needs no end
^a^4097^
1 set 0 {1,
1 set 0 \xc3
1 print 16
1 print 0~
error long
error syntax
error syntax
error syntax
[]
~ lines of 4,095, 4,096 and 4,097 bytes, and 256 and 257 levels of brackets
^a^4097^
1 set 0 {}^ ^4085^
1 set 0 {}^ ^4086^
1 set 0 {}^ ^4087^
1 set 0 ^{^256^^}^256^
1 set 0 ^{^257^^}^257^
~
error long
ok
ok
error long
ok
error syntax
~ words that nothing reaches are used again: 257 lines of 4,095 bytes, each of which asks for 4,086 words
!1 set 0 [1^,1^2042^]
!0!257!~
!ok
!0!257!~ what is reached stays: 128 such lists with their stack places fill a half
!1 set 0 [1^,1^2042^]
1 push 0
!0!128!1 set 0 [1^,1^2042^]
1 push 0
~
!ok
ok
!0!128!error nospace 4086
ok
~ 1,024 processes may live
!sys spawn
!2!1025!sys spawn
~
!ok ?
!2!1025!error procs
~ 16,384 names may stand, and a refused line brings none
!1 set 0 a?
!0!16384!1 set 0 fresh
99 set 0 fresh
1 set 0 {}
1 set 0 a7
~
!ok
!0!16384!error atoms
error atoms
ok
ok
";

// Terms beyond the walk limit.
pub(crate) const BEYOND: &[u8] = b"
~ a term of too many nodes
!1 set 0 {$0,$0}
!0!25!1 gc major
1 print 0
1 hd 1 0
~
!ok
!0!25!ok
error big
error badarg
~ a term that is too deep
!1 set 0 {$0}
!0!1024!1 flat 0
1 set 0 {$0}
1 flat 0
1 eq 0 1
1 cmp 1 0
1 print 0
1 set 2 #{}
1 mapput 3 2 0 1
1 mapget 3 2 0
1 mapput 3 1 0 1
1 set 6 #{!?=>0,!1!32!32=>0}
1 mapput 3 6 0 1
1 set 3 #{!?=>0,!1!33!33=>0,$0=>1}
1 set 3 [#{!?=>0,!1!33!33=>0},#{$0=>1}]
1 set 3 #{[$0|#{!?=>0,!1!33!33=>0}]=>1}
1 set 3 #{$0=>1}
1 set 3 #{1=>$0}
1 set 4 1
1 mapget 5 3 4
1 elem 5 1 5
1 flat 5
1 print 3
~
!ok
!0!1024!2048
ok
error big
error big
error big
error big
ok
error big
error badarg
error badarg
ok
error big
error big
error big
error mapsize
error big
ok
ok
ok
ok
2048
error big
";
