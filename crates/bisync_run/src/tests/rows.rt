//! Ordinary runs, as scripts.

use super::conflict_rows::CONFLICTS;
use super::resync_rows::RESYNCS;
use super::scripts::first_wrong;
use super::stopped_rows::STOPS;
use std::test::Fail;

const RUNS: [&str; 18] = [
    // All rules but a conflict, and the same as a dry run before it.
    r#"both a.txt=a@10 b.txt=bb@10 c.txt=ccc@10 docs/d.txt=dddd@10 docs/e.txt=eeeee@10 k.txt=kkkkkk@10
run 0 L R --resync
one c.txt n.txt=new@20
two b.txt=BBB@30
run 0 L R --resilient --recover --max-lock 2m --conflict-resolve newer --dry-run
told path2 newer "b.txt"|path1 deleted "c.txt"|path1 new "n.txt"|delete path2 "c.txt"|copy path2 path1 "b.txt"|copy path1 path2 "n.txt"|bisync: dry run, nothing was changed|
have1 a.txt=a@10 b.txt=bb@10 docs/d.txt=dddd@10 docs/e.txt=eeeee@10 k.txt=kkkkkk@10 n.txt=new@20
have2 a.txt=a@10 b.txt=BBB@30 c.txt=ccc@10 docs/d.txt=dddd@10 docs/e.txt=eeeee@10 k.txt=kkkkkk@10
holds 1.lst # bisync listing v2 stamp 1 fields
names 1.lst 2.lst
run 0 L R --resilient --recover --max-lock 2m --conflict-resolve newer
told path2 newer "b.txt"|path1 deleted "c.txt"|path1 new "n.txt"|delete path2 "c.txt"|copy path2 path1 "b.txt"|copy path1 path2 "n.txt"|bisync: done, 1 changes on path1, 2 changes on path2|
have a.txt=a@10 b.txt=BBB@30 docs/d.txt=dddd@10 docs/e.txt=eeeee@10 k.txt=kkkkkk@10 n.txt=new@20
names 1.lst 2.lst 1.lst-old 2.lst-old
holds 1.lst # bisync listing v2 stamp 2 fields size,modtime|- 1 - - 1970-01-01T00:00:10.000000000+0000 "a.txt"|- 3 - - 1970-01-01T00:00:30.000000000+0000 "b.txt"|- 4 - - 1970-01-01T00:00:10.000000000+0000 "docs/d.txt"|- 5 - - 1970-01-01T00:00:10.000000000+0000 "docs/e.txt"|- 6 - - 1970-01-01T00:00:10.000000000+0000 "k.txt"|- 3 - - 1970-01-01T00:00:20.000000000+0000 "n.txt"|# end 6 files|
holds 2.lst # bisync listing v2 stamp 2 fields
holds 1.lst-old # bisync listing v2 stamp 1 fields
holds 2.lst-old # bisync listing v2 stamp 1 fields"#,
    // No base.
    "both f=a@1
run 7 L R
told bisync: no listings, run with --resync|
have f=a@1
names",
    // The same change on both sides, and other fields than those of the base.
    r#"both f=a@1 k=k@1
run 0 L R --resync
both f=bb@9
run 7 L R --compare size
told bisync: listings were made with size,modtime, run with --resync|
names 1.lst 2.lst
run 0 L R
ends bisync: done, 0 changes on path1, 0 changes on path2|
holds 1.lst # bisync listing v2 stamp 2 fields size,modtime|- 2 - - 1970-01-01T00:00:09.000000000+0000 "f"|- 1 - - 1970-01-01T00:00:01.000000000+0000 "k"|# end 2 files|"#,
    // The same from a base of version 1.
    r#"both f=bb@9 k=k@1
hold 1.lst # bisync listing v1 stamp 1|- 1 - - 1970-01-01T00:00:01.000000000+0000 "f"|- 1 - - 1970-01-01T00:00:01.000000000+0000 "k"|
hold 2.lst # bisync listing v1 stamp 1|- 1 - - 1970-01-01T00:00:01.000000000+0000 "f"|- 1 - - 1970-01-01T00:00:01.000000000+0000 "k"|
run 0 L R
ends bisync: done, 0 changes on path1, 0 changes on path2|
holds 1.lst # bisync listing v2 stamp 2 fields size,modtime|
holds 1.lst-old # bisync listing v1 stamp 1|"#,
    // A change wins over a delete.
    "both a=0@1 k=k@1
run 0 L R --resync
one a
two a=22@9
run 0 L R
ends bisync: done, 1 changes on path1, 0 changes on path2|
have a=22@9 k=k@1",
    // Half of the files may be deleted.
    "both f1=1@1 f2=2@1 f3=3@1 f4=4@1
run 0 L R --resync
one f1 f2
run 0 L R
ends bisync: done, 0 changes on path1, 2 changes on path2|
have f3=3@1 f4=4@1",
    // More may be deleted only by force.
    "both f1=1@1 f2=2@1 f3=3@1 f4=4@1 f5=5@1
run 0 L R --resync
one f1 f2 f3
run 1 L R
told bisync: path1: too many deletes, 3 of 5|
have2 f1=1@1 f2=2@1 f3=3@1 f4=4@1 f5=5@1
names 1.lst 2.lst
run 0 L R --force
ends bisync: done, 0 changes on path1, 3 changes on path2|
have f4=4@1 f5=5@1",
    // All files may be changed only by force.
    "both f=0@1
run 0 L R --resync
one f=11@5
run 1 L R
told bisync: path1: all 1 files changed|
have2 f=0@1
run 0 L R --force
ends bisync: done, 0 changes on path1, 1 changes on path2|
have f=11@5",
    // A check file that is missing on one side.
    r#"both RCLONE_TEST=@1 k=k@1
run 0 L R --resync
two RCLONE_TEST
run 1 L R --check-access --resilient
told bisync: path2: check file "RCLONE_TEST" is missing|
names 1.lst 2.lst
run 7 L R --check-access
told bisync: path2: check file "RCLONE_TEST" is missing|
names 1.lst-err 2.lst-err"#,
    // An empty side.
    "both f=a@1
run 0 L R --resync
two f
run 7 L R
told bisync: path2: no files|
have1 f=a@1
have2
names 1.lst-err 2.lst-err",
    // A base that is no listing.
    r#"both k=k@1
hold 1.lst # bisync listing v1 stamp 1|- 1 - - 1970-01-01T00:00:01.000000000+0000 "k
run 7 L R
told bisync: 1.lst: line 2 is bad|
names 1.lst"#,
    // Locks.
    "both k=k@1
run 0 L R --resync
hold lock bisync lock v1|expires 1970-01-01T00:10:00.000000000+0000|
early 1 L R
told bisync: locked until 1970-01-01T00:10:00.000000000+0000|
names 1.lst 2.lst lock
run 0 L R
names 1.lst 2.lst 1.lst-old 2.lst-old
hold lock
run 1 L R
told bisync: locked, lock is unreadable|
hold lock bisync lock v1|expires never
run 1 L R
told bisync: locked, lock is unreadable|
hold lock bisync lock v1|expires never|
run 1 L R
told bisync: locked without end|
holds lock bisync lock v1|expires never|",
    // A filters file that is changed. The digests are those of no bytes and of a newline, by md5sum.
    "both k=k@1
hold filters
run 0 L R --resync --filters-file F
holds filters.md5 d41d8cd98f00b204e9800998ecf8427e
run 0 L R --filters-file F
told bisync: done, 0 changes on path1, 0 changes on path2|
hold filters |
run 7 L R --filters-file F
told bisync: filters file changed: 68b329da9893e34099c7d8ad5cb9c940, stored d41d8cd98f00b204e9800998ecf8427e|
names 1.lst-err 2.lst-err filters filters.md5
run 0 L R --resync --filters-file F
holds filters.md5 68b329da9893e34099c7d8ad5cb9c940
run 0 L R --filters-file F
told bisync: done, 0 changes on path1, 0 changes on path2|",
    // Bytes that are told only by their digests.
    r#"both f=a@1 k=@1
run 0 L R --resync --compare checksum
one f=b@1
run 0 L R --compare checksum
told path1 hash "f"|copy path1 path2 "f"|bisync: done, 0 changes on path1, 1 changes on path2|
have f=b@1 k=@1
holds 1.lst # bisync listing v2 stamp 2 fields checksum|- 1 md5:92eb5ffee6ae2fec3ad71c777531578f - 1970-01-01T00:00:01.000000000+0000 "f"|- 0 md5:d41d8cd98f00b204e9800998ecf8427e - 1970-01-01T00:00:01.000000000+0000 "k"|# end 2 files|"#,
    // Listings of a base that differ.
    r#"one f=a@1 k=k@1
two f=aa@1 k=k@1
hold 1.lst # bisync listing v2 stamp 1 fields size,modtime|- 1 - - 1970-01-01T00:00:01.000000000+0000 "f"|- 1 - - 1970-01-01T00:00:01.000000000+0000 "k"|# end 2 files|
hold 2.lst # bisync listing v2 stamp 1 fields size,modtime|- 2 - - 1970-01-01T00:00:01.000000000+0000 "f"|- 1 - - 1970-01-01T00:00:01.000000000+0000 "k"|# end 2 files|
run 1 L R --check-sync only
told bisync: listings differ at "f"|
names 1.lst 2.lst
run 1 L R --resilient
told bisync: out of sync at "f"|
run 0 L R --check-sync false
told bisync: done, 0 changes on path1, 0 changes on path2|
have1 f=a@1 k=k@1
have2 f=aa@1 k=k@1
run 7 L R
told bisync: out of sync at "f"|"#,
    // Listings of a base that agree, and nothing else is looked at.
    r#"both f=a@1 k=k@1
run 0 L R --resync
one f=b@9
run 0 L R --check-sync only
told bisync: listings agree|
names 1.lst 2.lst
run 0 L R --check-sync only --dry-run --force
told bisync: listings agree|
have2 f=a@1 k=k@1"#,
    // Times in one window.
    r#"both f=a@10 k=k@1
run 0 L R --resync --time-window 1s
one f=a@10.2
two f=a@10.9
run 0 L R --time-window 1s
told bisync: done, 0 changes on path1, 0 changes on path2|
have1 f=a@10.2 k=k@1
have2 f=a@10.9 k=k@1
holds 1.lst # bisync listing v2 stamp 2 fields size,modtime|- 1 - - 1970-01-01T00:00:10.200000000+0000 "f"|
holds 2.lst # bisync listing v2 stamp 2 fields size,modtime|- 1 - - 1970-01-01T00:00:10.900000000+0000 "f"|"#,
    // A side that keeps coarse times.
    r#"coarse
both k=k@2
run 0 L R --resync
one f=1@5.7
run 0 L R
ends bisync: done, 0 changes on path1, 1 changes on path2|
have1 f=1@5.7 k=k@2
have2 f=1@4 k=k@2
holds 1.lst # bisync listing v2 stamp 2 fields size,modtime|- 1 - - 1970-01-01T00:00:05.700000000+0000 "f"|
holds 2.lst # bisync listing v2 stamp 2 fields size,modtime|- 1 - - 1970-01-01T00:00:04.000000000+0000 "f"|
run 0 L R
told bisync: done, 0 changes on path1, 0 changes on path2|"#,
];

#[test]
fn runs_go_as_their_scripts_say(rt: HostRuntime) -> Result<(), Fail> {
    for rows in [
        RESYNCS.as_slice(),
        RUNS.as_slice(),
        CONFLICTS.as_slice(),
        STOPS.as_slice(),
    ] {
        assert_eq!(rt; first_wrong(rt.alloc(), rows)?, None);
    }
    Ok(())
}
