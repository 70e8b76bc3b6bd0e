//! Runs with conflicts, as scripts.

pub const CONFLICTS: [&str; 8] = [
    // Nobody wins, and the next run finds nothing to do.
    r#"both a.txt=0@1 k=k@1
run 0 L R --resync
one a.txt=11@5
two a.txt=222@6
run 0 L R
told path1 newer "a.txt"|path2 newer "a.txt"|rename path1 "a.txt" "a.txt.conflict1"|copy path1 path2 "a.txt.conflict1"|rename path2 "a.txt" "a.txt.conflict2"|copy path2 path1 "a.txt.conflict2"|bisync: done, 2 changes on path1, 2 changes on path2|
have a.txt.conflict1=11@5 a.txt.conflict2=222@6 k=k@1
run 0 L R
told bisync: done, 0 changes on path1, 0 changes on path2|
have a.txt.conflict1=11@5 a.txt.conflict2=222@6 k=k@1"#,
    // The larger file wins, and the first name is taken.
    "both a=0@1 a.path1=p@1 k=k@1
run 0 L R --resync
one a=11@5
two a=222@6
run 0 L R --conflict-resolve larger --conflict-loser pathname --conflict-suffix path
ends bisync: done, 2 changes on path1, 1 changes on path2|
have a=222@6 a.path1=p@1 a.path1-2=11@5 k=k@1",
    // A loser can be deleted only where there is a winner.
    "both a.txt=0@1 k=k@1
run 0 L R --resync
one a.txt=11@5
two a.txt=222@6
run 0 L R --conflict-loser delete
ends bisync: done, 2 changes on path1, 2 changes on path2|
have a.txt.conflict1=11@5 a.txt.conflict2=222@6 k=k@1",
    "both a.txt=0@1 k=k@1
run 0 L R --resync
one a.txt=11@5
two a.txt=222@6
run 0 L R --conflict-loser delete --conflict-resolve newer
ends bisync: done, 1 changes on path1, 0 changes on path2|
have a.txt=222@6 k=k@1",
    // A name of the base isn't free.
    "both a=0@1 a.conflict1=z@1 k=k@1
run 0 L R --resync
both a.conflict1
one a=11@5
two a=222@6
run 0 L R
ends bisync: done, 2 changes on path1, 2 changes on path2|
have a.conflict2=11@5 a.conflict3=222@6 k=k@1",
    // Names that don't pass are given and not listed.
    r#"both a.txt=0@1 k.txt=k@1
one raw.bin=r@1
hold filters + *.txt|- *|
run 0 L R --resync --filters-file F
one a.txt=11@5
two a.txt=222@6
run 0 L R --filters-file F
ends bisync: done, 2 changes on path1, 2 changes on path2|
have1 a.txt.conflict1=11@5 a.txt.conflict2=222@6 k.txt=k@1 raw.bin=r@1
have2 a.txt.conflict1=11@5 a.txt.conflict2=222@6 k.txt=k@1
holds 1.lst # bisync listing v2 stamp 2 fields size,modtime|- 1 - - 1970-01-01T00:00:01.000000000+0000 "k.txt"|# end 1 files|
holds 2.lst # bisync listing v2 stamp 2 fields size,modtime|- 1 - - 1970-01-01T00:00:01.000000000+0000 "k.txt"|# end 1 files|"#,
    // A name that would be too long.
    r#"both LONGEST=0@1 k=k@1
run 0 L R --resync
one LONGEST=11@5
two LONGEST=222@6
run 1 L R
starts bisync: path1: no room for a conflict name of "aaaaaaaa
ends aaaaaaaa"|
have1 LONGEST=11@5 k=k@1
have2 LONGEST=222@6 k=k@1
names 1.lst 2.lst"#,
    // Times in one window are the same, and times in two aren't.
    "both f=0@1 g=0@1 k=k@1
run 0 L R --resync --time-window 1s
one f=11@10.2 g=11@10.2
two f=222@10.9 g=222@11.1
run 0 L R --conflict-resolve newer --time-window 1s
ends bisync: done, 4 changes on path1, 3 changes on path2|
have f.conflict1=11@10.2 f.conflict2=222@10.9 g=222@11.1 g.conflict1=11@10.2 k=k@1",
];
