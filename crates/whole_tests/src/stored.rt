//! Texts that the program is given, and what it writes of them.

/// The text of `examples/read.script`: block 0 is read through one Data Block.
pub(crate) const STEPS: &str = "reserve 1 read 0 1 0+512
build 1 0
submit 1 0
ring 1
fetch 1
walk 1 0
walk 1 0
complete 1 0
reap 1
collect 1 0
gather 1 0
owners
release 1 0
";

/// All that is written of it.
pub(crate) const ANSWERS: &str = "1 reserve q 1 cid 0 data 1 chain 0
2 build ok
3 submit ok
4 ring ok
5 fetch cid 0 touched 2
6 walk more touched -
7 walk end touched 4
8 complete ok touched 3
9 reap done cid 0 status 0:00
10 collect status 0:00
11 gather 00*512
0-0 queue 0 sq
1-1 queue 0 cq
2-2 queue 1 sq
3-3 queue 1 cq
4-4 command 1 0 data
5-15 free
13 release ok
counts free 12 queue 4 chain 0 data 0
";

/// One block is read step by step in the shell; the controller works by one word.
pub(crate) const TYPED: &str = "# One block is read.
reserve 1 read 0 1 0+512
.owners
build 1 0
submit 1 0
ring 1
.serve
reap 1
collect 1 0
gather 1 0
release 1 0
.counts
";

/// What the shell answers.
pub(crate) const ANSWERED: &str = "2 reserve q 1 cid 0 data 1 chain 0
0-0 queue 0 sq
1-1 queue 0 cq
2-2 queue 1 sq
3-3 queue 1 cq
4-4 command 1 0 data
5-15 free
4 build ok
5 submit ok
6 ring ok
fetch 1 -> cid 0 touched 2
walk 1 0 -> more touched -
walk 1 0 -> end touched 4
complete 1 0 -> ok touched 3
served 4
8 reap done cid 0 status 0:00
9 collect status 0:00
10 gather 00*512
11 release ok
counts free 12 queue 4 chain 0 data 0
";

/// The text of `examples/two_submitters.script`: two submitters write three blocks each, and read them.
pub(crate) const TWO_SUBMITTERS: &str = "job 0 1 write 0 1 A0 0+512
job 0 1 write 1 1 A1 0+512
job 0 1 write 2 1 A2 0+512
job 0 1 read 0 1 0+512
job 0 1 read 1 1 0+512
job 0 1 read 2 1 0+512
job 1 1 write 8 1 B0 0+512
job 1 1 write 9 1 B1 0+512
job 1 1 write 10 1 B2 0+512
job 1 1 read 8 1 0+512
job 1 1 read 9 1 0+512
job 1 1 read 10 1 0+512
# Two submitters write three blocks each, and read them. Play it by: nvmesgl threads < examples/two_submitters.script
";

/// What is written of them, however the threads run.
pub(crate) const TWO_ENDED: &str = "1 seat 0 write status 0:00 -
2 seat 0 write status 0:00 -
3 seat 0 write status 0:00 -
4 seat 0 read status 0:00 A0*1,00*511
5 seat 0 read status 0:00 A1*1,00*511
6 seat 0 read status 0:00 A2*1,00*511
7 seat 1 write status 0:00 -
8 seat 1 write status 0:00 -
9 seat 1 write status 0:00 -
10 seat 1 read status 0:00 B0*1,00*511
11 seat 1 read status 0:00 B1*1,00*511
12 seat 1 read status 0:00 B2*1,00*511
0-0 queue 0 sq
1-1 queue 0 cq
2-2 queue 1 sq
3-3 queue 1 cq
4-15 free
counts free 12 queue 4 chain 0 data 0
";

/// Three jobs of a submitter, of one piece each: one leaves eleven entries in the log at most.
pub(crate) const JOBS: &str = "job 0 1 write 5 1 AB 0+512
job 0 1 read 5 1 0+512
job 0 1 read 6 1 0+512
";

/// What is written of them, however many rounds there are.
pub(crate) const ENDED: &str = "1 seat 0 write status 0:00 -
2 seat 0 read status 0:00 AB*1,00*511
3 seat 0 read status 0:00 00*512
0-0 queue 0 sq
1-1 queue 0 cq
2-2 queue 1 sq
3-3 queue 1 cq
4-15 free
counts free 12 queue 4 chain 0 data 0
";
