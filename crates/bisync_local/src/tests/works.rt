use crate::LocalWork;
use crate::tests::make_room;
use bisync_device::{Failed, Work, WorkName};
use bisync_text::Text;
use std::alloc::Global;
use std::fs;
use std::os::unix::fs::symlink;
use std::test::Fail;

const SESSION: &[u8; 32] = b"0123456789abcdef0123456789abcdef";

fn attach<W: Work>(
    work: &mut W,
    alloc: Global,
    folder: &str,
    filters: Option<&str>,
) -> Result<(), Fail> {
    let folder = Text::from_bytes(alloc, folder.as_bytes())?;
    match filters {
        Some(filters) => {
            let filters = Text::from_bytes(alloc, filters.as_bytes())?;
            work.attach(&folder, SESSION, Some(&filters))?;
        }
        None => work.attach(&folder, SESSION, None)?,
    }
    Ok(())
}

fn write<W: Work>(work: &mut W, name: WorkName, bytes: &str) -> Result<(), Failed> {
    work.begin(name)?;
    work.append(b"to be replaced")?;
    work.begin(name)?;
    work.append(bytes.as_bytes())?;
    work.sync()
}

/// Whether the name begins with these three bytes.
fn reads<W: Work>(work: &mut W, name: WorkName, bytes: &str) -> Result<bool, Failed> {
    let mut buffer = [0; 3];
    if !work.open(name)? {
        return Ok(false);
    }
    let count = work.read(&mut buffer)?;
    Ok(count == 3 && buffer.as_slice() == bytes.as_bytes())
}

#[test]
fn names_are_made_written_moved_and_removed(rt: HostRuntime) -> Result<(), Fail> {
    make_room(&rt, "name-room")?;
    let mut work = LocalWork::new(&rt);
    assert!(rt; work.open(WorkName::One) == Err(Failed));
    attach(&mut work, rt.alloc(), "name-room/state/work", None)?;
    assert!(rt; work.create(WorkName::Lock)?);
    assert!(rt; !work.create(WorkName::Lock)?);
    write(&mut work, WorkName::Lock, "lock")?;
    assert!(rt; reads(&mut work, WorkName::Lock, "loc")?);
    write(&mut work, WorkName::OneNew, "new")?;
    assert!(rt; work.rename(WorkName::OneNew, WorkName::Lock)?);
    assert!(rt; !work.rename(WorkName::OneNew, WorkName::Lock)?);
    let text = fs::read_to_string(
        &rt,
        "name-room/state/work/0123456789abcdef0123456789abcdef.lock",
    )?;
    assert!(rt; text.as_str() == "new");
    assert!(rt; work.remove(WorkName::Lock)?);
    assert!(rt; !work.remove(WorkName::Lock)?);
    assert!(rt; !work.open(WorkName::Lock)?);
    assert!(rt; !work.open(WorkName::Filters)?);
    assert_eq!(rt; work.faults(), 1);
    assert!(rt; work.begin(WorkName::Filters) == Err(Failed));
    assert_eq!(rt; work.faults(), 2);
    fs::remove_dir_all(&rt, "name-room")?;
    Ok(())
}

#[test]
fn the_filters_file_lies_where_it_was_named(rt: HostRuntime) -> Result<(), Fail> {
    make_room(&rt, "filter-room")?;
    fs::write(&rt, "filter-room/real", "- a")?;
    symlink(&rt, "real", "filter-room/filters")?;
    symlink(&rt, "real", "filter-room/filters.md5")?;
    let mut work = LocalWork::new(&rt);
    attach(
        &mut work,
        rt.alloc(),
        "filter-room",
        Some("filter-room/filters"),
    )?;
    assert!(rt; reads(&mut work, WorkName::Filters, "- a")?);
    assert!(rt; work.open(WorkName::FiltersMd5) == Err(Failed));
    write(&mut work, WorkName::FiltersMd5, "md5")?;
    assert!(rt; reads(&mut work, WorkName::FiltersMd5, "md5")?);
    assert!(rt; reads(&mut work, WorkName::Filters, "- a")?);
    assert!(rt; fs::read_to_string(&rt, "filter-room/filters.md5")?.as_str() == "md5");
    assert_eq!(rt; work.faults(), 1);
    fs::remove_dir_all(&rt, "filter-room")?;
    Ok(())
}
