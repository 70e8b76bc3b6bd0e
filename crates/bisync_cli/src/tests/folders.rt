//! Two folders of a disk: a resync, a run without a change, and a run with some.

use super::devices::words_of;
use crate::answers::Answer;
use crate::top::bisync_main;
use bisync_local::{LocalRemote, LocalWork, SystemClock};
use bisync_memory::MemSink;
use bisync_text::Text;
use std::fs;
use std::test::Fail;

const FILES: [(&str, &str); 3] = [
    ("room/one/x", "1"),
    ("room/one/y", "22"),
    ("room/one/z", "333"),
];

const COPIES: [(&str, &str); 3] = [
    ("room/two/x", "1"),
    ("room/two/y", "22"),
    ("room/two/z", "333"),
];

const RESYNC: &str = "bisync room/one room/two --workdir room/work --resync";

const RUN: &str = "bisync room/one room/two --workdir room/work";

const COPIED: &str = "copy path1 path2 \"x\"
copy path1 path2 \"y\"
copy path1 path2 \"z\"
bisync: resync done, 0 changes on path1, 3 changes on path2
";

const QUIET: &str = "bisync: done, 0 changes on path1, 0 changes on path2\n";

const CHANGED: &str = "path1 deleted \"x\"
path2 newer \"y\"
delete path2 \"x\"
copy path2 path1 \"y\"
bisync: done, 1 changes on path1, 1 changes on path2
";

const KEPT: [(&str, &str); 4] = [
    ("room/one/y", "changed"),
    ("room/two/y", "changed"),
    ("room/one/z", "333"),
    ("room/two/z", "333"),
];

/// Makes the two folders, the files on Path1.
fn make_room(rt: &HostRuntime) -> Result<(), Fail> {
    if fs::exists(rt, "room")? {
        fs::remove_dir_all(rt, "room")?;
    }
    fs::create_dir_all(rt, "room/one")?;
    fs::create_dir_all(rt, "room/two")?;
    for (name, text) in FILES {
        fs::write(rt, name, text)?;
    }
    Ok(())
}

fn ask(rt: &HostRuntime, words: &[Text], sink: &mut MemSink) -> Answer {
    bisync_main(
        rt.alloc(),
        words,
        &mut LocalRemote::new(rt),
        &mut LocalRemote::new(rt),
        &mut LocalRemote::new(rt),
        &mut LocalRemote::new(rt),
        &mut LocalWork::new(rt),
        &mut SystemClock::new(rt),
        sink,
    )
}

/// Whether the files have these texts.
fn are_read(rt: &HostRuntime, files: &[(&str, &str)]) -> Result<bool, Fail> {
    for (name, text) in files {
        if fs::read_to_string(rt, *name)?.as_str() != *text {
            return Ok(false);
        }
    }
    Ok(true)
}

/// Asks by these words, which end well and tell this.
fn told(rt: &HostRuntime, line: &'static str, report: &str) -> Result<(), Fail> {
    let mut sink = MemSink::new(rt.alloc());
    let answer = ask(rt, &words_of(rt.alloc(), line)?, &mut sink);
    if answer.status != 0 || sink.bytes() != report.as_bytes() {
        return Err(Fail::new(line));
    }
    Ok(())
}

#[test]
fn two_folders_are_kept_equal(rt: HostRuntime) -> Result<(), Fail> {
    make_room(&rt)?;
    told(&rt, RESYNC, COPIED)?;
    told(&rt, RUN, QUIET)?;
    if !are_read(&rt, &FILES)? || !are_read(&rt, &COPIES)? {
        return Err(Fail::new("the copies"));
    }
    fs::remove_file(&rt, "room/one/x")?;
    fs::write(&rt, "room/two/y", "changed")?;
    told(&rt, RUN, CHANGED)?;
    if !are_read(&rt, &KEPT)? || fs::exists(&rt, "room/two/x")? {
        return Err(Fail::new("the files"));
    }
    fs::remove_dir_all(&rt, "room")?;
    Ok(())
}
