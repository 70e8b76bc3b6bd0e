use super::{COMPARE, entry};
use crate::plan_lines;
use bisync_device::Failed;
use bisync_memory::MemSink;
use bisync_plan::Plan;
use bisync_text::{Path, quote};
use bisync_tree::{Compare, Entry, Listing, Names, Side, Step, View, Window};
use std::alloc::Global;
use std::test::Fail;

const CHECKSUMS: Compare = Compare {
    size: false,
    time: false,
    hash: true,
    window: Window::Ns1,
};

/// A listing of these paths, with a size and a time each.
fn listing(alloc: Global, rows: &[(&str, Entry)]) -> Result<Listing, Fail> {
    let mut listing = Listing::new(alloc);
    for (text, entry) in rows {
        let path = Path::read(alloc, text.as_bytes())?;
        if !listing.may_push(&path) {
            return Err(Fail::new("the paths don't rise"));
        }
        listing.push(path, *entry)?;
    }
    Ok(listing)
}

/// A view of a base and two listings now.
fn view(
    alloc: Global,
    base: &[(&str, Entry)],
    now1: &[(&str, Entry)],
    now2: &[(&str, Entry)],
) -> Result<View, Fail> {
    Ok(View {
        prior1: listing(alloc, base)?,
        prior2: listing(alloc, base)?,
        base1: listing(alloc, base)?,
        base2: listing(alloc, base)?,
        now1: listing(alloc, now1)?,
        now2: listing(alloc, now2)?,
        names1: Names::new(alloc),
        names2: Names::new(alloc),
    })
}

fn plan(alloc: Global, steps: Vec<Step>) -> Plan {
    Plan {
        steps,
        final1: Listing::new(alloc),
        final2: Listing::new(alloc),
    }
}

fn copy(alloc: Global, from: Side, text: &[u8]) -> Result<Step, Fail> {
    Ok(Step::Copy {
        from,
        path: Path::read(alloc, text)?,
        entry: entry(1, 1),
    })
}

#[test]
fn an_ordinary_run_tells_changes_and_steps(rt: HostRuntime) -> Result<(), Fail> {
    let alloc = rt.alloc();
    let base = [
        ("a.txt", entry(1, 10)),
        ("b.txt", entry(2, 10)),
        ("c.txt", entry(3, 10)),
        ("docs/d.txt", entry(4, 10)),
        ("docs/e.txt", entry(5, 10)),
        ("k.txt", entry(6, 10)),
    ];
    let now1 = [
        base[0],
        base[1],
        base[3],
        base[4],
        base[5],
        ("n.txt", entry(3, 20)),
    ];
    let now2 = [
        base[0],
        ("b.txt", entry(3, 30)),
        base[2],
        base[3],
        base[4],
        base[5],
    ];
    let view = view(alloc, &base, &now1, &now2)?;
    let mut steps = Vec::new(alloc);
    steps.push(Step::Delete {
        side: Side::Two,
        path: Path::read(alloc, b"c.txt")?,
        entry: entry(3, 10),
    })?;
    steps.push(copy(alloc, Side::Two, b"b.txt")?)?;
    steps.push(copy(alloc, Side::One, b"n.txt")?)?;
    let mut sink = MemSink::new(alloc);
    assert!(rt; plan_lines(Some(&view), &COMPARE, &plan(alloc, steps), &mut sink).is_ok());
    let want =
        b"path2 newer \"b.txt\"\npath1 deleted \"c.txt\"\npath1 new \"n.txt\"\ndelete path2 \"c.txt\"\ncopy path2 path1 \"b.txt\"\ncopy path1 path2 \"n.txt\"\n";
    assert_eq!(rt; sink.bytes(), want.as_slice());
    Ok(())
}

#[test]
fn a_resync_tells_its_copies(rt: HostRuntime) -> Result<(), Fail> {
    let alloc = rt.alloc();
    let mut steps = Vec::new(alloc);
    for text in [b"x", b"y", b"z"] {
        steps.push(copy(alloc, Side::One, text)?)?;
    }
    let mut sink = MemSink::new(alloc);
    assert!(rt; plan_lines(None, &COMPARE, &plan(alloc, steps), &mut sink).is_ok());
    let want = b"copy path1 path2 \"x\"\ncopy path1 path2 \"y\"\ncopy path1 path2 \"z\"\n";
    assert_eq!(rt; sink.bytes(), want.as_slice());
    Ok(())
}

#[test]
fn each_change_has_its_word(rt: HostRuntime) -> Result<(), Fail> {
    let alloc = rt.alloc();
    let old = Entry {
        size: 1,
        time: 5,
        hash: Some([1; 16]),
    };
    let new = Entry {
        size: 2,
        time: 4,
        hash: Some([2; 16]),
    };
    let cases = [
        (CHECKSUMS, "path1 hash \"f\"\n"),
        (COMPARE, "path1 older \"f\"\n"),
        (
            Compare {
                time: false,
                ..COMPARE
            },
            "path1 size \"f\"\n",
        ),
    ];
    for (compare, want) in cases {
        let view = view(alloc, &[("f", old)], &[("f", new)], &[("f", old)])?;
        let mut sink = MemSink::new(alloc);
        let steps = plan(alloc, Vec::new(alloc));
        assert!(rt; plan_lines(Some(&view), &compare, &steps, &mut sink).is_ok());
        assert_eq!(rt; sink.bytes(), want.as_bytes());
    }
    Ok(())
}

/// The plan of one rename of a long path to another, and its line.
fn long_rename(alloc: Global) -> Result<(Plan, Vec<u8>), Fail> {
    let long = vec![in alloc; b'"'; 4096]?;
    let quoted = quote(alloc, &long)?;
    let mut steps = Vec::new(alloc);
    steps.push(Step::Rename {
        side: Side::One,
        from: Path::read(alloc, &long)?,
        to: Path::read(alloc, b"a\"b\nc")?,
        entry: entry(1, 1),
    })?;
    let mut line = b"rename path1 ".to_vec(alloc)?;
    line.extend_from_slice(quoted.as_bytes())?;
    line.extend_from_slice(b" \"a\\x22b\\x0ac\"\n")?;
    Ok((plan(alloc, steps), line))
}

#[test]
fn a_line_may_be_longer_than_what_waits(rt: HostRuntime) -> Result<(), Fail> {
    let alloc = rt.alloc();
    let (plan, line) = long_rename(alloc)?;
    let mut sink = MemSink::new(alloc);
    assert!(rt; plan_lines(None, &COMPARE, &plan, &mut sink).is_ok());
    assert_eq!(rt; sink.bytes(), line.as_slice());
    Ok(())
}

#[test]
fn lines_are_gathered(rt: HostRuntime) -> Result<(), Fail> {
    let alloc = rt.alloc();
    let mut steps = Vec::new(alloc);
    for _ in 0..1000 {
        steps.push(copy(alloc, Side::One, b"a.txt")?)?;
    }
    let mut sink = MemSink::new(alloc);
    assert!(rt; plan_lines(None, &COMPARE, &plan(alloc, steps), &mut sink).is_ok());
    assert_eq!(rt; sink.bytes().len(), 25_000);
    assert_eq!(rt; sink.calls(), 4);
    Ok(())
}

#[test]
fn a_failed_write_leaves_a_prefix(rt: HostRuntime) -> Result<(), Fail> {
    let alloc = rt.alloc();
    // the call that fails, and whether its bytes are added
    for (call, done) in [(1, false), (1, true), (2, false), (3, true)] {
        let (plan, line) = long_rename(alloc)?;
        let mut sink = MemSink::new(alloc);
        sink.fail_at(call, done)?;
        assert!(rt; plan_lines(None, &COMPARE, &plan, &mut sink) == Err(Failed));
        assert!(rt; line.starts_with(sink.bytes()));
        assert_eq!(rt; (sink.calls(), sink.faults()), (call, 1));
    }
    Ok(())
}
