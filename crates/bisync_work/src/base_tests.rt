use crate::{Found, Pair, fall, find_base, set_back, switch, write_new};
use bisync_device::{Failed, Work, WorkName, WorkWakes};
use bisync_listing::read_listing;
use bisync_memory::{LooseMode, MemWork};
use bisync_tree::Limits;
use std::alloc::Global;
use std::test::Fail;

// Listings of no files and of one file, by their stamps.
const NONE_1: &[u8] = b"# bisync listing v2 stamp 1 fields size,modtime\n# end 0 files\n";

const NONE_2: &[u8] = b"# bisync listing v2 stamp 2 fields size,modtime\n# end 0 files\n";

const NONE_4: &[u8] = b"# bisync listing v2 stamp 4 fields size,modtime\n# end 0 files\n";

const ONE_1: &[u8] = b"# bisync listing v2 stamp 1 fields size,modtime
- 1 - - 1970-01-01T00:00:10.000000000+0000 \"a\"
# end 1 files
";

const ONE_2: &[u8] = b"# bisync listing v2 stamp 2 fields size,modtime
- 1 - - 1970-01-01T00:00:10.000000000+0000 \"a\"
# end 1 files
";

// Of the same stamp as ONE_1, and of other fields.
const SIZES_1: &[u8] = b"# bisync listing v2 stamp 1 fields size\n# end 0 files\n";

const CUT: &[u8] = b"# bisync listing v1 stamp 1\n- 1 - - 1970-01-01T00:00:01.000000000+0000 \"k";

#[derive(Clone, Copy, Debug, PartialEq, Eq)]
enum Move {
    SetBack,
    Switch,
    Fall,
}

fn folder(alloc: Global, texts: &[(WorkName, &[u8])]) -> MemWork {
    let mut work = MemWork::new(alloc);
    for (name, text) in texts {
        let _ = work.put(*name, text);
    }
    work
}

// The pair, the number of files in each listing of the base, the first bad name and the new stamp.
type Seen = (Option<Pair>, (usize, usize), Option<(WorkName, u64)>, u64);

fn seen<W: Work>(alloc: Global, work: &mut W) -> Option<Seen> {
    match find_base(alloc, work, &Limits::REAL) {
        Ok(found) => Some((
            found.pair,
            (found.one.len(), found.two.len()),
            found.bad,
            found.stamp,
        )),
        Err(_) => None,
    }
}

// Writes the listing of a text as both new listings.
fn write_text<W: Work>(alloc: Global, work: &mut W, text: &[u8]) -> bool {
    match read_listing(alloc, text, &Limits::REAL) {
        Ok((header, listing)) => {
            header.fields.is_some() && write_new(work, &header, &listing, &listing).is_ok()
        }
        Err(_) => false,
    }
}

fn make<W: Work>(work: &mut W, next: Move) -> Result<(), Failed> {
    match next {
        Move::SetBack => set_back(work, Pair::Current),
        Move::Switch => switch(work),
        Move::Fall => fall(work),
    }
}

#[test]
fn what_a_folder_has_is_found(rt: HostRuntime) -> Result<(), Fail> {
    let alloc = rt.alloc();
    let mut empty = MemWork::new(alloc);
    assert!(rt; seen(alloc, &mut empty) == Some((None, (0, 0), None, 1)));
    let mut mixed = folder(
        alloc,
        &[
            (WorkName::One, NONE_4),
            (WorkName::Two, NONE_2),
            (WorkName::OneOld, ONE_2),
            (WorkName::TwoOld, NONE_1),
        ],
    );
    assert!(rt; seen(alloc, &mut mixed) == Some((Some(Pair::Mixed), (1, 0), None, 3)));
    let mut unlike = folder(alloc, &[(WorkName::One, ONE_1), (WorkName::Two, SIZES_1)]);
    assert!(rt; seen(alloc, &mut unlike) == Some((None, (0, 0), None, 2)));
    let mut cut = folder(
        alloc,
        &[(WorkName::One, CUT), (WorkName::TwoOld, b"".as_slice())],
    );
    assert!(rt; seen(alloc, &mut cut) == Some((None, (0, 0), Some((WorkName::One, 2)), 1)));
    Ok(())
}

#[test]
fn a_listing_past_the_limit_is_bad(rt: HostRuntime) -> Result<(), Fail> {
    let alloc = rt.alloc();
    for (limit, bad) in [(62, None), (61, Some((WorkName::Two, 2)))] {
        let mut work = folder(alloc, &[(WorkName::Two, NONE_1)]);
        let limits = Limits {
            listing: limit,
            ..Limits::REAL
        };
        let found = find_base(alloc, &mut work, &limits);
        assert!(rt; found.is_ok_and(|found: Found| found.bad == bad));
    }
    Ok(())
}

#[test]
fn new_listings_are_synced(rt: HostRuntime) -> Result<(), Fail> {
    let alloc = rt.alloc();
    let mut work = MemWork::new(alloc);
    work.set_loose(LooseMode::Empty);
    assert!(rt; write_text(alloc, &mut work, NONE_1));
    work.arm(0);
    work.wake();
    assert!(rt; work.get(WorkName::OneNew) == Some(NONE_1));
    assert!(rt; work.get(WorkName::TwoNew) == Some(NONE_1));
    Ok(())
}

#[test]
fn a_base_goes_from_run_to_run(rt: HostRuntime) -> Result<(), Fail> {
    let alloc = rt.alloc();
    let mut work = folder(alloc, &[(WorkName::One, ONE_1), (WorkName::Two, ONE_1)]);
    assert!(rt; seen(alloc, &mut work) == Some((Some(Pair::Current), (1, 1), None, 2)));
    assert!(rt; write_text(alloc, &mut work, NONE_2));
    assert!(rt; seen(alloc, &mut work) == Some((Some(Pair::Current), (1, 1), None, 2)));
    assert!(rt; set_back(&mut work, Pair::Current) == Ok(()));
    assert!(rt; seen(alloc, &mut work) == Some((Some(Pair::Old), (1, 1), None, 2)));
    assert!(rt; switch(&mut work) == Ok(()));
    assert!(rt; seen(alloc, &mut work) == Some((Some(Pair::Current), (0, 0), None, 3)));
    assert!(rt; work.get(WorkName::OneNew).is_none());
    Ok(())
}

#[test]
fn a_fall_that_fails_leaves_the_newer_base(rt: HostRuntime) -> Result<(), Fail> {
    let alloc = rt.alloc();
    let mut work = folder(
        alloc,
        &[
            (WorkName::One, ONE_2),
            (WorkName::Two, ONE_2),
            (WorkName::OneOld, NONE_1),
            (WorkName::TwoOld, NONE_1),
        ],
    );
    assert!(rt; work.fail_at(2, false).is_ok());
    assert!(rt; fall(&mut work) == Err(Failed));
    assert!(rt; work.get(WorkName::OneOld).is_none());
    assert!(rt; work.get(WorkName::OneErr) == Some(NONE_1));
    assert!(rt; seen(alloc, &mut work) == Some((Some(Pair::Current), (1, 1), None, 3)));
    Ok(())
}

// Each call of each move fails, without and with its effect: the files in the base afterwards.
#[test]
fn each_failed_call_leaves_one_base(rt: HostRuntime) -> Result<(), Fail> {
    let alloc = rt.alloc();
    let current = [(WorkName::One, ONE_1), (WorkName::Two, ONE_1)];
    let ready = [
        (WorkName::OneOld, ONE_1),
        (WorkName::TwoOld, ONE_1),
        (WorkName::OneNew, NONE_2),
        (WorkName::TwoNew, NONE_2),
    ];
    let both = [
        (WorkName::One, ONE_2),
        (WorkName::Two, ONE_2),
        (WorkName::OneOld, NONE_1),
        (WorkName::TwoOld, NONE_1),
    ];
    let cases = [
        (Move::SetBack, current.as_slice(), 1, (Some(1), Some(1))),
        (Move::SetBack, current.as_slice(), 2, (Some(1), Some(1))),
        (Move::Switch, ready.as_slice(), 1, (Some(1), Some(1))),
        (Move::Switch, ready.as_slice(), 2, (Some(1), Some(0))),
        (Move::Fall, both.as_slice(), 1, (Some(1), Some(1))),
        (Move::Fall, both.as_slice(), 2, (Some(1), None)),
        (Move::Fall, both.as_slice(), 3, (None, None)),
        (Move::Fall, both.as_slice(), 4, (None, None)),
    ];
    for (next, texts, call, (not_done, done)) in cases {
        for (effect, want) in [(false, not_done), (true, done)] {
            let mut work = folder(alloc, texts);
            assert!(rt; work.fail_at(call, effect).is_ok());
            assert!(rt; make(&mut work, next) == Err(Failed));
            let found = seen(alloc, &mut work);
            let files = found.map(|seen: Seen| seen.0.map(|_| seen.1.0));
            assert!(rt; files == Some(want));
        }
    }
    Ok(())
}
