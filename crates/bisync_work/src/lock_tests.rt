//! The lock and the filters file in folders in memory.

ghost use Rattle.std.specs.Prelude.{◌≡◌, true, false, [], None};
ghost use Rattle.bisync_device.specs.Faults.{HasCause};
ghost use Rattle.bisync_device.specs.WorkFolder.{Absent};

use crate::{
    RulesFault, Taken, Until, free_lock, read_rules, renew, store_digest, stored_digest, take_lock,
};
use bisync_device::{Failed, Work, WorkName};
use bisync_memory::MemWork;
use bisync_text::{Path, Text};
use std::alloc::{AllocError, Global};
use std::test::Fail;

const NEVER: &[u8] = b"bisync lock v1\nexpires never\n";

const EXPIRING: &[u8] = b"bisync lock v1\nexpires 1970-01-01T00:10:00.000000000+0000\n";

const LATEST: &[u8] = b"bisync lock v1\nexpires 2262-04-11T23:47:16.854775807+0000\n";

/// The moment of `EXPIRING`.
const EXPIRY: i64 = 600_000_000_000;

const TWO_MINUTES: i64 = 120_000_000_000;

fn holding(alloc: Global, name: WorkName, bytes: &[u8]) -> Result<MemWork, Fail> {
    let mut work = MemWork::new(alloc);
    work.put(name, bytes)?;
    Ok(work)
}

#[test]
fn a_lock_blocks_until_its_expiry(rt: HostRuntime) -> Result<(), Fail> {
    let mut long =
        *b"bisync lock v1\nexpires 1970-01-01T00:10:00.000000000+0000\n.......................................................................";
    assert_eq!(rt; long.len(), 129);
    long[58..].fill(b'\n');
    let cases: [(&[u8], i64, Taken); 13] = [
        (EXPIRING, EXPIRY, Taken::Got),
        (EXPIRING, EXPIRY - 1, Taken::Held(Until::At(EXPIRY))),
        (EXPIRING, i64::MIN, Taken::Held(Until::At(EXPIRY))),
        (LATEST, i64::MAX, Taken::Got),
        (NEVER, i64::MAX, Taken::Held(Until::Never)),
        (b"", EXPIRY, Taken::Held(Until::Unreadable)),
        (
            b"bisync lock v1\nexpires never",
            EXPIRY,
            Taken::Held(Until::Unreadable),
        ),
        (
            b"bisync lock v1\nexpires never\n\n",
            EXPIRY,
            Taken::Held(Until::Unreadable),
        ),
        (
            b"bisync lock v2\nexpires never\n",
            EXPIRY,
            Taken::Held(Until::Unreadable),
        ),
        (
            b"bisync lock v1\r\nexpires never\r\n",
            EXPIRY,
            Taken::Held(Until::Unreadable),
        ),
        (
            b"bisync lock v1\nexpires 1970-02-30T00:00:00.000000000+0000\n",
            EXPIRY,
            Taken::Held(Until::Unreadable),
        ),
        (&EXPIRING[..57], EXPIRY, Taken::Held(Until::Unreadable)),
        (&long, EXPIRY, Taken::Held(Until::Unreadable)),
    ];
    for (text, now, wanted) in cases {
        let mut work = holding(rt.alloc(), WorkName::Lock, text)?;
        assert!(rt; take_lock(&mut work, now, None) == Ok(wanted));
        let left = if wanted == Taken::Got { NEVER } else { text };
        assert!(rt; work.get(WorkName::Lock) == Some(left));
        assert!(rt; work.get(WorkName::LockNew).is_none());
        assert_eq!(rt; work.faults(), 0);
    }
    Ok(())
}

#[test]
fn a_lock_that_is_taken_says_its_expiry(rt: HostRuntime) -> Result<(), Fail> {
    let cases = [
        (EXPIRY, None, NEVER),
        (EXPIRY - TWO_MINUTES, Some(TWO_MINUTES), EXPIRING),
        (0, Some(EXPIRY), EXPIRING),
        (i64::MAX, Some(TWO_MINUTES), LATEST),
        (0, Some(i64::MAX), LATEST),
    ];
    for (now, max_lock, text) in cases {
        let mut work = MemWork::new(rt.alloc());
        assert!(rt; take_lock(&mut work, now, max_lock) == Ok(Taken::Got));
        assert!(rt; work.get(WorkName::Lock) == Some(text));
        assert_eq!(rt; work.calls(), 3);
    }
    Ok(())
}

#[test]
fn a_lock_is_renewed_and_freed(rt: HostRuntime) -> Result<(), Fail> {
    let mut work = MemWork::new(rt.alloc());
    assert!(rt; take_lock(&mut work, 0, Some(TWO_MINUTES)) == Ok(Taken::Got));
    assert!(rt; renew(&mut work, EXPIRY - TWO_MINUTES, TWO_MINUTES) == Ok(()));
    assert!(rt; work.get(WorkName::Lock) == Some(EXPIRING));
    assert!(rt; work.get(WorkName::LockNew).is_none());
    assert!(rt; free_lock(&mut work) == Ok(()));
    assert!(rt; work.get(WorkName::Lock).is_none());
    assert!(rt; free_lock(&mut work) == Ok(()));
    Ok(())
}

/// What stands under `lock` and `lock-new` where one call fails, with its effect done or not.
#[test]
fn a_lock_stays_or_is_new_where_a_call_fails(rt: HostRuntime) -> Result<(), Fail> {
    type Row = (u64, bool, Option<&'static [u8]>, Option<&'static [u8]>);
    let empty = b"".as_slice();
    let made: [Row; 6] = [
        (1, false, None, None),
        (1, true, Some(empty), None),
        (2, false, Some(empty), None),
        (2, true, Some(NEVER), None),
        (3, false, Some(NEVER), None),
        (3, true, Some(NEVER), None),
    ];
    let replaced: [Row; 12] = [
        (1, true, Some(EXPIRING), None),
        (2, false, Some(EXPIRING), None),
        (3, true, Some(EXPIRING), None),
        (4, false, Some(EXPIRING), None),
        (5, false, Some(EXPIRING), None),
        (5, true, Some(EXPIRING), Some(empty)),
        (6, false, Some(EXPIRING), Some(empty)),
        (6, true, Some(EXPIRING), Some(NEVER)),
        (7, false, Some(EXPIRING), Some(NEVER)),
        (7, true, Some(EXPIRING), Some(NEVER)),
        (8, false, Some(EXPIRING), Some(NEVER)),
        (8, true, Some(NEVER), None),
    ];
    for (call, done, lock, lock_new) in made {
        let mut work = MemWork::new(rt.alloc());
        work.fail_at(call, done)?;
        assert!(rt; take_lock(&mut work, EXPIRY, None) == Err(Failed));
        assert!(rt; work.get(WorkName::Lock) == lock);
        assert!(rt; work.get(WorkName::LockNew) == lock_new);
        assert_eq!(rt; (work.calls(), work.faults()), (call, 1));
    }
    for (call, done, lock, lock_new) in replaced {
        let mut work = holding(rt.alloc(), WorkName::Lock, EXPIRING)?;
        work.fail_at(call, done)?;
        assert!(rt; take_lock(&mut work, EXPIRY, None) == Err(Failed));
        assert!(rt; work.get(WorkName::Lock) == lock);
        assert!(rt; work.get(WorkName::LockNew) == lock_new);
        assert_eq!(rt; (work.calls(), work.faults()), (call, 1));
    }
    Ok(())
}

/// `#` that many times.
fn comment(alloc: Global, len: usize) -> Result<Vec<u8>, AllocError> {
    let mut text = Vec::new(alloc);
    for _ in 0..len {
        text.push(b'#')?;
    }
    Ok(text)
}

#[test]
fn the_filters_file_gives_rules_and_a_digest(rt: HostRuntime) -> Result<(), Fail> {
    let mut work = holding(rt.alloc(), WorkName::Filters, b"- x")?;
    let (rules, digest) = read_rules(rt.alloc(), &mut work)?;
    assert!(rt; !rules.passes(&Path::read(rt.alloc(), b"x")?));
    assert!(rt; rules.passes(&Path::read(rt.alloc(), b"y")?));
    assert!(rt; store_digest(&mut work, &digest) == Ok(()));
    assert!(rt;
        work.get(WorkName::FiltersMd5) == Some(b"cd82d9fe79ff8f856b8f610c73ca1e72".as_slice())
    );
    assert!(rt; stored_digest(&mut work) == Ok(Some(digest)));
    Ok(())
}

#[test]
fn the_longest_filters_file_is_read_whole(rt: HostRuntime) -> Result<(), Fail> {
    let text = comment(rt.alloc(), 1_048_576)?;
    let mut work = holding(rt.alloc(), WorkName::Filters, &text)?;
    let (_, digest) = read_rules(rt.alloc(), &mut work)?;
    assert!(rt; store_digest(&mut work, &digest) == Ok(()));
    assert!(rt;
        work.get(WorkName::FiltersMd5) == Some(b"fce5ba29ddaee75c68d1c1f040c8883d".as_slice())
    );
    Ok(())
}

fn fault(alloc: Global, work: &mut MemWork) -> Option<RulesFault> {
    read_rules(alloc, work).err()
}

#[test]
fn a_filters_file_without_rules_is_refused(rt: HostRuntime) -> Result<(), Fail> {
    assert!(rt; fault(rt.alloc(), &mut MemWork::new(rt.alloc())) == Some(RulesFault::Absent));
    let long = comment(rt.alloc(), 1_048_577)?;
    let longer = comment(rt.alloc(), 1_060_000)?;
    let cases: [(&[u8], u64); 4] = [(&long, 1), (&longer, 1), (b"+ \xff", 1), (b"- a\n\nb", 3)];
    for (text, line) in cases {
        let mut work = holding(rt.alloc(), WorkName::Filters, text)?;
        assert!(rt; fault(rt.alloc(), &mut work) == Some(RulesFault::BadRule(line)));
        assert!(rt; work.calls() <= 259);
    }
    for call in 1..=3 {
        let mut work = holding(rt.alloc(), WorkName::Filters, b"- x")?;
        work.fail_at(call, true)?;
        assert!(rt; fault(rt.alloc(), &mut work) == Some(RulesFault::Failed));
        assert!(rt; fault(rt.alloc(), &mut work).is_none());
    }
    Ok(())
}

#[test]
fn a_stored_digest_has_one_text(rt: HostRuntime) -> Result<(), Fail> {
    let digest = [
        0xcd, 0x82, 0xd9, 0xfe, 0x79, 0xff, 0x8f, 0x85, 0x6b, 0x8f, 0x61, 0x0c, 0x73, 0xca, 0x1e,
        0x72,
    ];
    let cases: [(&[u8], Option<[u8; 16]>); 7] = [
        (b"cd82d9fe79ff8f856b8f610c73ca1e72", Some(digest)),
        (b"cd82d9fe79ff8f856b8f610c73ca1e72\n", Some(digest)),
        (b"cd82d9fe79ff8f856b8f610c73ca1e72\n\n", None),
        (b"cd82d9fe79ff8f856b8f610c73ca1e72\n\n\n", None),
        (b"CD82D9FE79FF8F856B8F610C73CA1E72", None),
        (b"cd82d9fe79ff8f856b8f610c73ca1e7", None),
        (b"", None),
    ];
    assert!(rt; stored_digest(&mut MemWork::new(rt.alloc())) == Ok(None));
    for (text, wanted) in cases {
        let mut work = holding(rt.alloc(), WorkName::FiltersMd5, text)?;
        assert!(rt; stored_digest(&mut work) == Ok(wanted));
    }
    Ok(())
}

/// A folder that tells nothing, makes no name and has none.
#[derive(Drop)]
struct Blank {
    opened: bool,
    writing: Option<WorkName>,
    faults: u64,
}

impl Blank {
    fn fail(&mut self)
        ensures count { HasCause true self.old.faults self.new.faults }
        ensures opened { self.new.opened ≡ self.old.opened }
        ensures writing { self.new.writing ≡ None }
    {
        self.writing = None;
        self.faults = self.faults.saturating_add(1);
    }
}

impl Work for Blank {
    ghost tells = { false };

    ghost state = { λ blank. record {
      folder = record {
        one = Absent;
        two = Absent;
        one_old = Absent;
        two_old = Absent;
        one_new = Absent;
        two_new = Absent;
        one_err = Absent;
        two_err = Absent;
        lock = Absent;
        lock_new = Absent;
        folders = Absent;
        folders_new = Absent;
        filters = Absent;
        filters_md5 = Absent;
      };
      reading = record { opened = blank.opened; rest = [] };
      writing = blank.writing;
      faults = blank.faults;
      left = None;
    } };

    fn attach(
        &mut self,
        _folder: &Text,
        _session: &[u8; 32],
        _filters: Option<&Text>,
    ) -> Result<(), Failed> {
        self.opened = false;
        self.writing = None;
        Ok(())
    }

    fn open(&mut self, _name: WorkName) -> Result<bool, Failed> {
        self.opened = false;
        Ok(false)
    }

    fn read(&mut self, _buffer: &mut [u8]) -> Result<usize, Failed> {
        self.opened = false;
        self.faults = self.faults.saturating_add(1);
        Err(Failed)
    }

    fn create(&mut self, _name: WorkName) -> Result<bool, Failed> {
        Ok(false)
    }

    fn begin(&mut self, _name: WorkName) -> Result<(), Failed> {
        self.fail();
        Err(Failed)
    }

    fn append(&mut self, _bytes: &[u8]) -> Result<(), Failed> {
        self.fail();
        Err(Failed)
    }

    fn sync(&mut self) -> Result<(), Failed> {
        self.fail();
        Err(Failed)
    }

    fn rename(&mut self, _from: WorkName, _to: WorkName) -> Result<bool, Failed> {
        self.writing = None;
        Ok(false)
    }

    fn remove(&mut self, _name: WorkName) -> Result<bool, Failed> {
        self.writing = None;
        Ok(false)
    }
}

#[test]
fn a_lock_that_is_neither_made_nor_there_is_unreadable(rt: HostRuntime) {
    let mut work = Blank {
        opened: false,
        writing: None,
        faults: 0,
    };
    assert!(rt; take_lock(&mut work, 0, None) == Ok(Taken::Held(Until::Unreadable)));
    assert!(rt; renew(&mut work, 0, TWO_MINUTES) == Err(Failed));
    assert!(rt; free_lock(&mut work) == Ok(()));
    assert!(rt; stored_digest(&mut work) == Ok(None));
}
