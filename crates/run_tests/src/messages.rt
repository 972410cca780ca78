// Short scripts of messages.
pub(crate) const ROWS: &[u8] = b"
~ a copy keeps no sharing within it, and a register that holds no pid names no process
1 set 0 {x}
1 set 1 {$0,$0}
1 send 1 1
1 recv 2
1 eq 1 2
1 flat 2
1 send 1 $0
~
ok
ok
ok
ok
true
7
error badarg
~ a term beyond the walk limit is not sent
1 set 0 {$0,$0}
1 set 0 {$0,$0}
1 set 0 {$0,$0}
1 set 0 {$0,$0}
1 set 0 {$0,$0}
1 set 0 {$0,$0}
1 set 0 {$0,$0}
1 set 0 {$0,$0}
1 set 0 {$0,$0}
1 set 0 {$0,$0}
1 set 0 {$0,$0}
1 set 0 {$0,$0}
1 set 0 {$0,$0}
1 set 0 {$0,$0}
1 set 0 {$0,$0}
1 set 0 {$0,$0}
1 set 0 {$0,$0}
1 set 0 {$0,$0}
1 set 0 {$0,$0}
1 set 0 {$0,$0}
1 set 0 {$0,$0}
1 set 0 {$0,$0}
1 set 0 {$0,$0}
1 set 0 {$0,$0}
1 set 0 {$0,$0}
1 gc major
1 print 0
1 send 0 1
1 send 0 99
1 send 0 $1
1 hd 1 0
1 queue
~
ok
ok
ok
ok
ok
ok
ok
ok
ok
ok
ok
ok
ok
ok
ok
ok
ok
ok
ok
ok
ok
ok
ok
ok
ok
ok
error big
error big
error big
error badarg
error badarg
[]
~ a process that does not live takes no message, and an empty queue gives none
1 send 0 99
99 print 0
1 recv 0
1 pop 0
1 queue
~
ok
error noproc
error empty
error empty
[]
~ each holder of a shared binary is counted, those of a message among them
1 fill 0 65 7
1 set 1 {$0,$0}
sys spawn
1 send 1 2
sys sweep
sys counts
1 exit
sys sweep
sys counts
sys procs
~
ok
ok
ok 2
ok
ok
bins [1:3] funs []
ok
ok
bins [1:2] funs []
[2]
~ a shared binary lives as long as a message that waits has it
sys spawn
1 fill 0 65 1
1 send 0 2
1 set 0 []
sys sweep
sys counts
2 exit
sys sweep
sys counts
~
ok 2
ok
ok
ok
ok
bins [1:1] funs []
ok
ok
bins [] funs []
~ an order and its invoice
sys spawn
1 self 0
1 set 1 #{item=>book, count=>2, price=>1250}
1 fill 2 200 65
1 set 3 {order,$0,$1,$2}
1 send 3 2
2 recv 0
2 elem 1 2 0
2 elem 2 3 0
2 set 3 price
2 mapget 4 2 3
2 print 4
2 set 5 amount
2 set 6 2500
2 mapput 7 2 5 6
2 set 8 {invoice,$7}
2 send 8 $1
1 queue
1 recv 4
1 print 4
1 gc minor
sys sweep
sys counts
sys quit
~
ok 2
ok
ok
ok
ok
ok
ok
ok
ok
ok
ok
1250
ok
ok
ok
ok
ok
[{invoice,#{amount=>2500,count=>2,item=>book,price=>1250}}]
ok
{invoice,#{amount=>2500,count=>2,item=>book,price=>1250}}
ok
ok
bins [1:2] funs []
ok
~ messages come in the order of sending, whoever sends, and wait through collections
sys spawn
sys spawn
1 set 0 a
2 set 0 {b,[1]}
3 set 0 #{c=>1}
1 send 0 3
2 send 0 3
3 send 0 3
1 set 0 d
1 send 0 3
1 gc minor
3 queue
3 recv 1
sys sweep
3 queue
3 recv 2
1 send 0 3
3 queue
3 recv 3
3 recv 4
3 recv 5
3 recv 6
3 print 1
3 print 2
3 print 3
3 print 4
3 print 5
3 queue
2 queue
~
ok 2
ok 3
ok
ok
ok
ok
ok
ok
ok
ok
ok
[a,{b,[1]},#{c=>1},d]
ok
ok
[{b,[1]},#{c=>1},d]
ok
ok
[#{c=>1},d,d]
ok
ok
ok
error empty
a
{b,[1]}
#{c=>1}
d
d
[]
[]
~ a receiver by a register: itself, another, one that is gone
sys spawn
1 self 0
1 set 1 <0.2.0>
1 set 2 <0.9.0>
1 set 3 m
1 send 3 $0
1 send 3 $1
1 send 3 $2
1 send 3 0
1 queue
2 queue
2 exit
1 send 3 $1
1 send 3 $3
sys procs
~
ok 2
ok
ok
ok
ok
ok
ok
ok
ok
[m]
[m]
ok
ok
error badarg
[1]
~ what was sent to a number before its process was made is gone, and so is the queue of a process that ends
1 set 0 early
1 send 0 2
sys spawn
2 queue
1 send 0 2
2 queue
2 exit
sys spawn
3 queue
1 send 0 2
1 queue
~
ok
ok
ok 2
[]
ok
[early]
ok
ok 3
[]
ok
[]
~ a message is not changed by what its sender does after it
sys spawn
1 set 0 {a,[b]}
1 send 0 2
1 set 0 c
1 gc major
2 recv 0
2 print 0
1 exit
2 gc major
2 print 0
~
ok 2
ok
ok
ok
ok
ok
{a,[b]}
ok
ok
{a,[b]}
~ each kind of term is copied
sys spawn
1 set 0 [1,-576460752303423489,170141183460469231731687303715884105727,a,[],{},<0.7.0>,#{},#{1=>2,a=>{b}},<<>>,<<1,2,3>>,x|y]
1 ref 1
1 fill 2 65 9
1 part 3 2 1 3
1 part 4 0 0 0
1 fun 5 f 2 $0 $3
1 set 6 {$0,$1,$2,$3,$5,[$6]}
1 send 6 2
1 exit
sys sweep
2 recv 15
2 print 15
2 flat 15
2 elem 1 5 15
2 env 2 2 1
2 print 2
sys counts
~
ok 2
ok
ok
ok
ok
error badarg
ok
ok
ok
ok
ok
ok
{[1,-576460752303423489,170141183460469231731687303715884105727,a,[],{},<0.7.0>,#{},#{1=>2,a=>{b}},<<>>,<<1,2,3>>,x|y],\
    #Ref<0.1.1>,<<9^,9^64^>>,<<9,9,9>>,#Fun<f/2>,[[]]}
146
ok
ok
<<9,9,9>>
bins [1:3] funs [f/2:1]
~ refusals of processes that do not live stand first
9 send 0 1
9 send 0 $0
9 recv 0
9 queue
~
error noproc
error noproc
error noproc
error noproc
~ lines that do not fit
1 send 0
1 send 0 1 1
1 send 16 1
1 send 0 $16
1 send 0 $
1 send 0 01
1 send 0 -1
1 send 0 <0.1.0>
1 send 0 1099511627776
1 recv
1 recv 16
1 recv 0 0
1 queue 0
1 send 0 1099511627775
~
error syntax
error syntax
error syntax
error syntax
error syntax
error syntax
error syntax
error syntax
error syntax
error syntax
error syntax
error syntax
error syntax
ok
";
