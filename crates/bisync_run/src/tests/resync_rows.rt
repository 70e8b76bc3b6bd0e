//! Resyncs, as scripts.

pub const RESYNCS: [&str; 7] = [
    // Three files are copied and listed, and the next run has nothing to do. A dry run changes nothing.
    r#"one x=1@1 y=22@2 z=333@3
run 0 L R --resync --dry-run
told copy path1 path2 "x"|copy path1 path2 "y"|copy path1 path2 "z"|bisync: dry run, nothing was changed|
have1 x=1@1 y=22@2 z=333@3
have2
names
run 0 L R --resync
told copy path1 path2 "x"|copy path1 path2 "y"|copy path1 path2 "z"|bisync: resync done, 0 changes on path1, 3 changes on path2|
have x=1@1 y=22@2 z=333@3
names 1.lst 2.lst
holds 1.lst # bisync listing v2 stamp 1 fields size,modtime|- 1 - - 1970-01-01T00:00:01.000000000+0000 "x"|- 2 - - 1970-01-01T00:00:02.000000000+0000 "y"|- 3 - - 1970-01-01T00:00:03.000000000+0000 "z"|# end 3 files|
holds 2.lst # bisync listing v2 stamp 1 fields size,modtime|- 1 - - 1970-01-01T00:00:01.000000000+0000 "x"|- 2 - - 1970-01-01T00:00:02.000000000+0000 "y"|- 3 - - 1970-01-01T00:00:03.000000000+0000 "z"|# end 3 files|
run 0 L R
told bisync: done, 0 changes on path1, 0 changes on path2|
have x=1@1 y=22@2 z=333@3"#,
    // Path1 wins where times are the same.
    "one f=one@5
two f=three@5
run 0 L R --resync-mode newer
ends bisync: resync done, 0 changes on path1, 1 changes on path2|
have f=one@5",
    // Two empty sides have empty listings, from which no run can start.
    "run 0 L R --resync
told bisync: resync done, 0 changes on path1, 0 changes on path2|
holds 1.lst # bisync listing v2 stamp 1 fields size,modtime|# end 0 files|
holds 2.lst # bisync listing v2 stamp 1 fields size,modtime|# end 0 files|
names 1.lst 2.lst
run 7 L R
told bisync: path1: prior listing is empty|
names 1.lst-err 2.lst-err",
    // Only files that pass are copied and listed.
    r#"one a.txt=a@4 b=b@4
hold filters + *.txt|- *|
run 0 L R --resync --filters-file F
have2 a.txt=a@4
holds 1.lst # bisync listing v2 stamp 1 fields size,modtime|- 1 - - 1970-01-01T00:00:04.000000000+0000 "a.txt"|# end 1 files|
holds 2.lst # bisync listing v2 stamp 1 fields size,modtime|- 1 - - 1970-01-01T00:00:04.000000000+0000 "a.txt"|# end 1 files|
names 1.lst 2.lst filters filters.md5"#,
    // A filters file that isn't there, and one with a line that is no rule.
    "one k=k@1
run 2 L R --resync --filters-file F
told bisync: filters file is not there|
run 2 L R --filters-file F
told bisync: filters file is not there|
hold filters + a|x b|
run 2 L R --resync --filters-file F
told bisync: filters file: line 2 is no rule|
run 2 L R --filters-file F
told bisync: filters file: line 2 is no rule|
names filters
calls one 0
calls two 0",
    // A lock that expires, and one that isn't readable.
    "one x=1@1
hold lock bisync lock v1|expires 1970-01-01T00:10:00.000000000+0000|
early 1 L R --resync
told bisync: locked until 1970-01-01T00:10:00.000000000+0000|
names lock
calls one 0
run 0 L R --resync
names 1.lst 2.lst
hold lock
run 1 L R --resync
told bisync: locked, lock is unreadable|",
    // A lock that couldn't be removed, at the greatest moment.
    "one x=1@1 y=22@2 z=333@3
fail work 21
late 1 L R --resync --max-lock 2m
ends bisync: lock could not be removed|
holds lock bisync lock v1|expires 2262-04-11T23:47:16.854775807+0000|
late 0 L R --resync --max-lock 2m
ends bisync: resync done, 0 changes on path1, 0 changes on path2|
names 1.lst 2.lst 1.lst-err 2.lst-err",
];
