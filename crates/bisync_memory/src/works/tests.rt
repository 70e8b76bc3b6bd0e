use super::*;
use bisync_device::{Failed, Work, WorkWakes};
use bisync_text::Text;
use std::test::Fail;

fn write<W: Work>(work: &mut W, name: WorkName, bytes: &[u8], synced: bool) -> Result<(), Failed> {
    work.begin(name)?;
    work.append(bytes)?;
    if synced { work.sync() } else { Ok(()) }
}

fn read<W: Work>(work: &mut W, name: WorkName, buffer: &mut [u8; 8]) -> Result<usize, Failed> {
    if work.open(name)? {
        work.read(buffer)
    } else {
        Ok(0)
    }
}

#[test]
fn a_name_that_was_put_is_there(rt: HostRuntime) -> Result<(), Fail> {
    let mut work = MemWork::new(rt.alloc());
    assert!(rt; work.put(WorkName::One, b"first").is_ok());
    assert!(rt; work.get(WorkName::One) == Some(b"first".as_slice()));
    assert!(rt; work.get(WorkName::Two).is_none());
    assert_eq!(rt; (work.calls(), work.faults()), (0, 0));
    Ok(())
}

#[test]
fn a_listed_call_fails_with_or_without_its_effect(rt: HostRuntime) -> Result<(), Fail> {
    for (done, want) in [(false, None), (true, Some(b"".as_slice()))] {
        let mut work = MemWork::new(rt.alloc());
        assert!(rt; work.fail_at(1, done).is_ok());
        assert!(rt; work.begin(WorkName::LockNew) == Err(Failed));
        assert!(rt; work.get(WorkName::LockNew) == want);
        assert_eq!(rt; (work.calls(), work.faults()), (1, 1));
        assert!(rt; work.begin(WorkName::Lock) == Ok(()));
        assert_eq!(rt; (work.calls(), work.faults()), (2, 1));
    }
    Ok(())
}

#[test]
fn a_stop_leaves_loose_bytes_by_the_mode(rt: HostRuntime) -> Result<(), Fail> {
    let cases = [
        (LooseMode::Keep, b"abcde".as_slice()),
        (LooseMode::Empty, b"".as_slice()),
        (LooseMode::Half, b"ab".as_slice()),
    ];
    for (mode, left) in cases {
        let mut work = MemWork::new(rt.alloc());
        work.set_loose(mode);
        assert!(rt; write(&mut work, WorkName::OneNew, b"abcde", false) == Ok(()));
        assert!(rt; write(&mut work, WorkName::TwoNew, b"abcde", true) == Ok(()));
        work.arm(0);
        assert!(rt; work.rename(WorkName::OneNew, WorkName::One) == Err(Failed));
        work.wake();
        assert!(rt; work.get(WorkName::OneNew) == Some(left));
        assert!(rt; work.get(WorkName::TwoNew) == Some(b"abcde".as_slice()));
        assert!(rt; work.begin(WorkName::Lock) == Ok(()));
    }
    Ok(())
}

#[test]
fn a_name_is_made_once(rt: HostRuntime) -> Result<(), Fail> {
    let alloc = rt.alloc();
    let mut work = MemWork::new(alloc);
    if let Ok(folder) = Text::from_bytes(alloc, b"folder") {
        assert!(rt; work.attach(&folder, &[b'0'; 32], None) == Ok(()));
    }
    assert!(rt; work.create(WorkName::Lock) == Ok(true));
    assert!(rt; work.create(WorkName::Lock) == Ok(false));
    assert!(rt; work.remove(WorkName::Lock) == Ok(true));
    Ok(())
}

#[test]
fn a_name_is_moved_with_its_bytes(rt: HostRuntime) -> Result<(), Fail> {
    let mut work = MemWork::new(rt.alloc());
    let mut buffer = [b'.'; 8];
    assert!(rt; write(&mut work, WorkName::OneNew, b"abc", false) == Ok(()));
    assert!(rt; work.rename(WorkName::OneNew, WorkName::One) == Ok(true));
    assert!(rt; read(&mut work, WorkName::One, &mut buffer) == Ok(3));
    assert_eq!(rt; buffer, *b"abc.....");
    assert!(rt; read(&mut work, WorkName::OneNew, &mut buffer) == Ok(0));
    Ok(())
}
