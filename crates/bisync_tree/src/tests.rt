use crate::comparing::class;
use crate::{Class, Compare, Entry, Limits, Listing, Names, View, Walk, Window, same};
use bisync_text::Path;
use std::alloc::Global;
use std::test::Fail;

const SECOND: i64 = 1_000_000_000;

/// A listing of these paths, sizes and times.
fn listing(alloc: Global, rows: &[(&str, u64, i64)]) -> Result<Listing, Fail> {
    let mut listing = Listing::new(alloc);
    for (text, size, time) in rows {
        let path = Path::read(alloc, text.as_bytes())?;
        if !listing.may_push(&path) {
            return Err(Fail::new("the paths don't rise"));
        }
        let entry = Entry {
            size: *size,
            time: *time,
            hash: None,
        };
        listing.push(path, entry)?;
    }
    Ok(listing)
}

fn names(alloc: Global, texts: &[&str]) -> Result<Names, Fail> {
    let mut names = Names::new(alloc);
    for text in texts {
        let path = Path::read(alloc, text.as_bytes())?;
        if !names.may_push(&path) {
            return Err(Fail::new("the paths don't rise"));
        }
        names.push(path)?;
    }
    Ok(names)
}

#[test]
fn one_push_makes_the_length_one(rt: HostRuntime) -> Result<(), Fail> {
    assert_eq!(rt; listing(rt.alloc(), &[("a", 1, 0)])?.len(), 1);
    assert_eq!(rt; names(rt.alloc(), &["a"])?.len(), 1);
    Ok(())
}

#[test]
fn paths_are_found_among_others(rt: HostRuntime) -> Result<(), Fail> {
    let listing = listing(
        rt.alloc(),
        &[("b", 1, 0), ("d", 2, 0), ("d/a", 3, 0), ("e", 4, 0)],
    )?;
    let names = names(rt.alloc(), &["b", "d", "d/a", "e"])?;
    let cases = [
        ("a", None),
        ("b", Some(1)),
        ("c", None),
        ("d", Some(2)),
        ("d/a", Some(3)),
        ("d/b", None),
        ("e", Some(4)),
        ("f", None),
    ];
    for (text, size) in cases {
        let path = Path::read(rt.alloc(), text.as_bytes())?;
        assert_eq!(rt; listing.get(&path).map(|entry| entry.size), size, "{text}");
        assert_eq!(rt; names.holds(&path), size.is_some(), "{text}");
    }
    Ok(())
}

#[test]
fn a_walk_gives_each_path_once_in_order(rt: HostRuntime) -> Result<(), Fail> {
    let base = [
        ("a.txt", 1, 10),
        ("b.txt", 2, 10),
        ("c.txt", 3, 10),
        ("docs/d.txt", 4, 10),
        ("docs/e.txt", 5, 10),
        ("k.txt", 6, 10),
    ];
    let now1 = [
        ("a.txt", 1, 10),
        ("b.txt", 2, 10),
        ("docs/d.txt", 4, 10),
        ("docs/e.txt", 5, 10),
        ("k.txt", 6, 10),
        ("n.txt", 3, 20),
    ];
    let now2 = [
        ("a.txt", 1, 10),
        ("b.txt", 7, 30),
        ("c.txt", 3, 10),
        ("docs/d.txt", 4, 10),
        ("docs/e.txt", 5, 10),
        ("k.txt", 6, 10),
    ];
    let view = View {
        prior1: listing(rt.alloc(), &base)?,
        prior2: listing(rt.alloc(), &base)?,
        base1: listing(rt.alloc(), &base)?,
        base2: listing(rt.alloc(), &base)?,
        now1: listing(rt.alloc(), &now1)?,
        now2: listing(rt.alloc(), &now2)?,
        names1: names(
            rt.alloc(),
            &[
                "a.txt",
                "b.txt",
                "docs/d.txt",
                "docs/e.txt",
                "k.txt",
                "n.txt",
            ],
        )?,
        names2: names(
            rt.alloc(),
            &[
                "a.txt",
                "b.txt",
                "c.txt",
                "docs/d.txt",
                "docs/e.txt",
                "k.txt",
            ],
        )?,
    };
    let cells = [
        ("a.txt", Some(1), Some(1), Some(1), Some(1)),
        ("b.txt", Some(2), Some(2), Some(2), Some(7)),
        ("c.txt", Some(3), Some(3), None, Some(3)),
        ("docs/d.txt", Some(4), Some(4), Some(4), Some(4)),
        ("docs/e.txt", Some(5), Some(5), Some(5), Some(5)),
        ("k.txt", Some(6), Some(6), Some(6), Some(6)),
        ("n.txt", None, None, Some(3), None),
    ];
    let mut walk = Walk::new(&view);
    for (text, base1, base2, now1, now2) in cells {
        let Some(cell) = walk.next() else {
            return Err(Fail::new("a cell is missing"));
        };
        assert_eq!(rt; cell.path.as_bytes(), text.as_bytes());
        assert_eq!(rt; cell.base1.map(|entry| entry.size), base1, "{text}");
        assert_eq!(rt; cell.base2.map(|entry| entry.size), base2, "{text}");
        assert_eq!(rt; cell.now1.map(|entry| entry.size), now1, "{text}");
        assert_eq!(rt; cell.now2.map(|entry| entry.size), now2, "{text}");
    }
    assert!(rt; walk.next().is_none());
    Ok(())
}

#[test]
fn windows_have_their_lengths(rt: HostRuntime) {
    let cases = [
        (Window::Ns1, 1, 3_999_999_999, -1_500_000_001),
        (Window::Ns100, 100, 3_999_999_900, -1_500_000_000),
        (Window::Us1, 1_000, 3_999_999_000, -1_500_000_000),
        (Window::Ms1, 1_000_000, 3_999_000_000, -1_500_000_000),
        (Window::S1, SECOND, 3 * SECOND, -SECOND),
        (Window::S2, 2 * SECOND, 2 * SECOND, 0),
    ];
    for (window, ns, late, early) in cases {
        assert_eq!(rt; window.ns(), ns);
        assert_eq!(rt; window.brought(3_999_999_999), late);
        assert_eq!(rt; window.brought(-1_500_000_001), early);
        assert_eq!(rt; window.coarser(Window::Ms1).ns(), ns.max(1_000_000));
    }
}

#[test]
fn times_are_compared_in_windows(rt: HostRuntime) {
    let at = |time: i64| Entry {
        size: 1,
        time,
        hash: None,
    };
    let compare = Compare {
        size: true,
        time: true,
        hash: false,
        window: Window::S1,
    };
    let cases = [
        (Some(at(SECOND)), Some(at(2 * SECOND - 1)), Class::Quiet),
        (Some(at(SECOND)), Some(at(2 * SECOND)), Class::Fresh),
        (None, Some(at(SECOND)), Class::Fresh),
        (Some(at(SECOND)), None, Class::Gone),
        (None, None, Class::Quiet),
    ];
    for (base, now, wanted) in cases {
        assert_eq!(rt; class(&compare, base.as_ref(), now.as_ref()), wanted);
        assert_eq!(rt;
            same(&compare, base.as_ref(), now.as_ref()),
            wanted == Class::Quiet
        );
    }
}

#[test]
fn the_limits_of_the_program(rt: HostRuntime) {
    assert_eq!(rt; Limits::REAL.files, 1_000_000);
    assert_eq!(rt; Limits::REAL.names, 128 * 1024 * 1024);
    assert_eq!(rt; Limits::REAL.listing, 2 * 1024 * 1024 * 1024);
}
