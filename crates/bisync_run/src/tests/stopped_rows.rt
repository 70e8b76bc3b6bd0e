//! Runs that stop, fail or write their lock again, as scripts.

pub const STOPS: [&str; 6] = [
    // All stops right after a rename on Path1.
    "both a.txt=0@1 k=k@1
run 0 L R --resync
one a.txt=11@5
two a.txt=222@6
stop 3 2 20
run 1 L R --resilient --recover
ends bisync: path1: remote failed|
names 1.lst-old 2.lst-old 1.lst-new 2.lst-new lock
wake
have1 a.txt.conflict1=11@5 k=k@1
run 7 L R
told bisync: last run did not end, run with --recover or --resync|
names 1.lst-old 2.lst-old 1.lst-new 2.lst-new
run 0 L R --resilient --recover
ends bisync: done, 1 changes on path1, 1 changes on path2|
have a.txt=222@6 a.txt.conflict1=11@5 k=k@1",
    // All stops between the two renames of the switch.
    "both a.txt=a@10 b.txt=bb@10 c.txt=ccc@10 docs/d.txt=dddd@10 docs/e.txt=eeeee@10 k.txt=kkkkkk@10
run 0 L R --resync
one c.txt n.txt=new@20
two b.txt=BBB@30
stop 100 100 21
run 1 L R --resilient --recover --max-lock 2m --conflict-resolve newer
ends bisync: work folder failed|
names 1.lst 1.lst-old 2.lst-old 2.lst-new lock
holds 1.lst # bisync listing v2 stamp 2 fields
holds 1.lst-old # bisync listing v2 stamp 1 fields
holds 2.lst-old # bisync listing v2 stamp 1 fields
holds 2.lst-new # bisync listing v2 stamp 2 fields
wake
run 0 L R --resilient --recover --max-lock 2m --conflict-resolve newer
ends bisync: done, 0 changes on path1, 0 changes on path2|
have a.txt=a@10 b.txt=BBB@30 docs/d.txt=dddd@10 docs/e.txt=eeeee@10 k.txt=kkkkkk@10 n.txt=new@20
holds 1.lst # bisync listing v2 stamp 3 fields
holds 2.lst # bisync listing v2 stamp 3 fields",
    // A commit that is done and fails.
    "both f=0@1 k=k@1
run 0 L R --resync
one f=11@5
faildone two 7
run 1 L R --resilient --recover
ends bisync: path2: remote failed|
have f=11@5 k=k@1
names 1.lst-old 2.lst-old 1.lst-new 2.lst-new
run 0 L R --resilient --recover
ends bisync: done, 0 changes on path1, 0 changes on path2|",
    // The lock is written at 30 seconds, and the clock is read at 60, 90, 120 and 150 seconds. So it is
    // written again before the second step and before the fourth, and before no other.
    "both a.txt=0@1 k=k@1
run 0 L R --resync
one a.txt=11@5
two a.txt=222@6
fail work 42
tick 1 L R --max-lock 2m --resilient
ends bisync: work folder failed|
have1 a.txt.conflict1=11@5 k=k@1
have2 a.txt=222@6 k=k@1",
    "both a.txt=0@1 k=k@1
run 0 L R --resync
one a.txt=11@5
two a.txt=222@6
fail work 46
tick 1 L R --max-lock 2m --resilient
ends bisync: work folder failed|
have1 a.txt.conflict1=11@5 k=k@1
have2 a.txt.conflict1=11@5 a.txt.conflict2=222@6 k=k@1",
    "both a.txt=0@1 k=k@1
run 0 L R --resync
one a.txt=11@5
two a.txt=222@6
fail work 52
tick 1 L R --max-lock 2m
ends bisync: lock could not be removed|
have a.txt.conflict1=11@5 a.txt.conflict2=222@6 k=k@1
holds lock bisync lock v1|expires 1970-01-01T00:04:30.000000000+0000|
calls work 52",
];
