use crate::{StepFault, perform};
use bisync_memory::MemRemote;
use bisync_text::{Path, Text};
use bisync_tree::{Entry, File, Side, Step, Window};
use std::alloc::Global;
use std::test::Fail;

/// The digest of `abc`, from RFC 1321.
const ABC: [u8; 16] = [
    0x90, 0x01, 0x50, 0x98, 0x3c, 0xd2, 0x4f, 0xb0, 0xd6, 0x96, 0x3f, 0x7d, 0x28, 0xe1, 0x7f, 0x72,
];

/// The digest of `abd`, by `md5sum`.
const ABD: [u8; 16] = [
    0x49, 0x11, 0xe5, 0x16, 0xe5, 0xaa, 0x21, 0xd3, 0x27, 0x51, 0x2e, 0x0c, 0x8b, 0x19, 0x76, 0x16,
];

/// Two remotes in memory. The copies between them read by two bytes.
#[derive(Drop)]
struct Pair {
    alloc: Global,
    one: MemRemote,
    two: MemRemote,
}

impl Pair {
    fn new(alloc: Global) -> Pair {
        Pair {
            alloc,
            one: MemRemote::new(alloc),
            two: MemRemote::new(alloc),
        }
    }

    fn path(&self, text: &str) -> Result<Path, Fail> {
        Ok(Path::read(self.alloc, text.as_bytes())?)
    }

    fn put(&mut self, side: Side, path: &str, bytes: &str, time: i64) -> Result<(), Fail> {
        let path = self.path(path)?;
        let bytes = Text::from_bytes(self.alloc, bytes.as_bytes())?;
        let file = File { bytes, time };
        match side {
            Side::One => self.one.put(&path, &file)?,
            Side::Two => self.two.put(&path, &file)?,
        }
        Ok(())
    }

    fn fail_at(&mut self, side: Side, call: u64, done: bool) -> Result<(), Fail> {
        match side {
            Side::One => self.one.fail_at(call, done)?,
            Side::Two => self.two.fail_at(call, done)?,
        }
        Ok(())
    }

    fn perform(&mut self, step: &Step) -> Result<(), StepFault> {
        perform(step, &mut self.one, &mut self.two, &mut [0; 2])
    }

    fn copy(
        &mut self,
        from: Side,
        path: &str,
        entry: Entry,
    ) -> Result<Result<(), StepFault>, Fail> {
        let path = self.path(path)?;
        Ok(self.perform(&Step::Copy { from, path, entry }))
    }

    fn rename(&mut self, side: Side, from: &str, to: &str) -> Result<Result<(), StepFault>, Fail> {
        let (from, to, entry) = (self.path(from)?, self.path(to)?, listed(1, None));
        Ok(self.perform(&Step::Rename {
            side,
            from,
            to,
            entry,
        }))
    }

    fn delete(&mut self, side: Side, path: &str) -> Result<Result<(), StepFault>, Fail> {
        let (path, entry) = (self.path(path)?, listed(1, None));
        Ok(self.perform(&Step::Delete { side, path, entry }))
    }

    fn has(&self, side: Side, path: &str) -> Result<bool, Fail> {
        let path = self.path(path)?;
        Ok(match side {
            Side::One => self.one.get(&path).is_some(),
            Side::Two => self.two.get(&path).is_some(),
        })
    }

    /// Whether Path2 has a file of these bytes and this time.
    fn two_holds(&self, path: &str, bytes: &str, time: i64) -> Result<bool, Fail> {
        let path = self.path(path)?;
        Ok(match self.two.get(&path) {
            Some(file) => file.bytes.as_bytes() == bytes.as_bytes() && file.time == time,
            None => false,
        })
    }
}

fn listed(size: u64, hash: Option<[u8; 16]>) -> Entry {
    Entry {
        size,
        time: 7_900_000_000,
        hash,
    }
}

#[test]
fn copies_an_empty_file(rt: HostRuntime) -> Result<(), Fail> {
    let mut pair = Pair::new(rt.alloc());
    pair.put(Side::One, "d/a", "", 0)?;
    assert_eq!(rt; pair.copy(Side::One, "d/a", listed(0, None))?, Ok(()));
    assert!(rt; pair.two_holds("d/a", "", 7_900_000_000)?);
    assert_eq!(rt; (pair.one.calls(), pair.two.calls()), (2, 2));
    Ok(())
}

#[test]
fn brings_the_listed_time_in_whole_windows(rt: HostRuntime) -> Result<(), Fail> {
    let mut pair = Pair::new(rt.alloc());
    pair.two.set_window(Window::S2);
    pair.put(Side::One, "a", "abc", 5)?;
    assert_eq!(rt; pair.copy(Side::One, "a", listed(3, Some(ABC)))?, Ok(()));
    assert!(rt; pair.two_holds("a", "abc", 6_000_000_000)?);
    assert_eq!(rt; (pair.one.calls(), pair.two.calls()), (4, 4));
    Ok(())
}

#[test]
fn refuses_a_file_that_is_not_as_listed(rt: HostRuntime) -> Result<(), Fail> {
    for (size, hash, read, one, two) in [
        (1, None, listed(2, None), 2, 1),
        (4, None, listed(3, None), 4, 3),
        (2, Some(ABC), listed(3, Some(ABC)), 3, 2),
        (3, Some(ABD), listed(3, Some(ABC)), 4, 3),
    ] {
        let mut pair = Pair::new(rt.alloc());
        let entry = listed(size, hash);
        pair.put(Side::One, "a", "abc", 0)?;
        assert_eq!(rt;
            pair.copy(Side::One, "a", entry)?,
            Err(StepFault::Moved(Side::One, entry, Some(read)))
        );
        assert!(rt; !pair.has(Side::Two, "a")?, "{size}");
        assert_eq!(rt; (pair.one.calls(), pair.two.calls()), (one, two), "{size}");
    }
    Ok(())
}

#[test]
fn refuses_an_absent_file(rt: HostRuntime) -> Result<(), Fail> {
    let mut pair = Pair::new(rt.alloc());
    let entry = listed(1, None);
    for side in [Side::One, Side::Two] {
        pair.put(side.other(), "a", "x", 0)?;
        let moved = Err(StepFault::Moved(side, entry, None));
        assert_eq!(rt; pair.copy(side, "b", entry)?, moved);
        assert_eq!(rt; pair.rename(side, "b", "c")?, moved);
        assert_eq!(rt; pair.delete(side, "b")?, moved);
    }
    assert_eq!(rt; (pair.one.calls(), pair.two.calls()), (3, 3));
    Ok(())
}

#[test]
fn renames_and_deletes_on_one_side(rt: HostRuntime) -> Result<(), Fail> {
    for side in [Side::One, Side::Two] {
        let mut pair = Pair::new(rt.alloc());
        pair.put(Side::One, "a", "x", 0)?;
        pair.put(Side::Two, "a", "x", 0)?;
        assert_eq!(rt; pair.rename(side, "a", "b")?, Ok(()));
        assert!(rt; pair.has(side, "b")? && !pair.has(side, "a")?);
        assert_eq!(rt; pair.delete(side, "b")?, Ok(()));
        assert!(rt; !pair.has(side, "b")? && pair.has(side.other(), "a")?);
    }
    Ok(())
}

#[test]
fn tells_the_side_whose_call_failed(rt: HostRuntime) -> Result<(), Fail> {
    for (from, side, call) in [
        (Side::One, Side::One, 1),
        (Side::One, Side::Two, 1),
        (Side::One, Side::One, 2),
        (Side::One, Side::Two, 2),
        (Side::One, Side::One, 3),
        (Side::One, Side::Two, 3),
        (Side::One, Side::One, 4),
        (Side::One, Side::Two, 4),
        (Side::Two, Side::Two, 4),
        (Side::Two, Side::One, 4),
    ] {
        for done in [false, true] {
            let mut pair = Pair::new(rt.alloc());
            pair.put(from, "a", "abc", 0)?;
            pair.fail_at(side, call, done)?;
            assert_eq!(rt;
                pair.copy(from, "a", listed(3, None))?,
                Err(StepFault::RemoteFault(side)),
                "{side:?} {call}"
            );
            assert_eq!(rt;
                pair.has(from.other(), "a")?,
                done && side != from && call == 4,
                "{side:?} {call}"
            );
        }
    }
    Ok(())
}

#[test]
fn tells_the_side_of_a_failed_change(rt: HostRuntime) -> Result<(), Fail> {
    for side in [Side::One, Side::Two] {
        for done in [false, true] {
            let mut pair = Pair::new(rt.alloc());
            pair.put(side, "a", "x", 0)?;
            pair.fail_at(side, 1, done)?;
            pair.fail_at(side, 2, done)?;
            assert_eq!(rt;
                pair.rename(side, "a", "b")?,
                Err(StepFault::RemoteFault(side))
            );
            assert_eq!(rt; pair.has(side, "b")?, done);
            let left = if done { "b" } else { "a" };
            assert_eq!(rt; pair.delete(side, left)?, Err(StepFault::RemoteFault(side)));
            assert_eq!(rt; pair.has(side, left)?, !done);
        }
    }
    Ok(())
}
