use crate::changes::delta;
use crate::table::rule;
use crate::{Delta, Rule, Walk};
use bisync_text::Path;
use bisync_tree::{Compare, Entry, Listing, Names, Side, View, Window};
use std::alloc::Global;
use std::test::Fail;

const SIZE_AND_TIME: Compare = Compare {
    size: true,
    time: true,
    hash: false,
    window: Window::Ns1,
};

/// An entry of this size and time.
fn entry(size: u64, time: i64) -> Entry {
    Entry {
        size,
        time,
        hash: None,
    }
}

#[test]
fn each_cell_has_its_rule(rt: HostRuntime) -> Result<(), Fail> {
    let old = entry(1, 1);
    let new = entry(2, 5);
    let other = entry(3, 5);
    // the bases of Path1 and Path2, what they have now, and the rule
    let cells = [
        (Some(old), Some(old), Some(old), Some(old), Rule::Nothing),
        (Some(old), Some(old), None, None, Rule::Nothing),
        (
            Some(old),
            Some(old),
            Some(new),
            Some(old),
            Rule::Copy(Side::One),
        ),
        (Some(old), Some(old), Some(new), None, Rule::Copy(Side::One)),
        (
            Some(old),
            Some(old),
            Some(old),
            Some(new),
            Rule::Copy(Side::Two),
        ),
        (Some(old), Some(old), None, Some(new), Rule::Copy(Side::Two)),
        (
            Some(old),
            Some(old),
            None,
            Some(old),
            Rule::Delete(Side::Two),
        ),
        (
            Some(old),
            Some(old),
            Some(old),
            None,
            Rule::Delete(Side::One),
        ),
        (Some(old), None, None, None, Rule::Nothing),
        (None, Some(old), None, None, Rule::Nothing),
        (Some(old), Some(old), Some(new), Some(new), Rule::Nothing),
        (Some(old), Some(old), Some(new), Some(other), Rule::Conflict),
        (None, None, Some(new), None, Rule::Copy(Side::One)),
        (None, None, Some(new), Some(other), Rule::Conflict),
    ];
    for (base1, base2, now1, now2, expected) in cells {
        let found = rule(
            &SIZE_AND_TIME,
            base1.as_ref(),
            base2.as_ref(),
            now1.as_ref(),
            now2.as_ref(),
        );
        assert_eq!(rt; found, expected);
    }
    Ok(())
}

#[test]
fn each_change_has_its_delta(rt: HostRuntime) -> Result<(), Fail> {
    let checksums = Compare {
        size: false,
        time: false,
        hash: true,
        window: Window::Ns1,
    };
    let a = Entry {
        size: 1,
        time: 1,
        hash: Some([1; 16]),
    };
    let b = Entry {
        size: 1,
        time: 1,
        hash: Some([2; 16]),
    };
    let cases = [
        (SIZE_AND_TIME, None, Some(entry(1, 1)), Some(Delta::New)),
        (
            SIZE_AND_TIME,
            Some(entry(1, 1)),
            Some(entry(1, 2)),
            Some(Delta::Newer),
        ),
        (
            SIZE_AND_TIME,
            Some(entry(1, 2)),
            Some(entry(2, 1)),
            Some(Delta::Older),
        ),
        (
            SIZE_AND_TIME,
            Some(entry(1, 1)),
            Some(entry(2, 1)),
            Some(Delta::Size),
        ),
        (SIZE_AND_TIME, Some(entry(1, 1)), Some(entry(1, 1)), None),
        (SIZE_AND_TIME, Some(entry(1, 1)), None, Some(Delta::Deleted)),
        (SIZE_AND_TIME, None, None, None),
        (checksums, Some(a), Some(b), Some(Delta::Hash)),
    ];
    for (compare, base, now, expected) in cases {
        assert_eq!(rt; delta(&compare, base.as_ref(), now.as_ref()), expected);
    }
    Ok(())
}

/// A listing of these paths, each with an entry of this size.
fn listing(alloc: Global, rows: &[(&str, u64)]) -> Result<Listing, Fail> {
    let mut listing = Listing::new(alloc);
    for (text, size) in rows {
        let path = Path::read(alloc, text.as_bytes())?;
        if !listing.may_push(&path) {
            return Err(Fail::new("the paths don't rise"));
        }
        listing.push(path, entry(*size, 10))?;
    }
    Ok(listing)
}

#[test]
fn the_walk_gives_each_path_once(rt: HostRuntime) -> Result<(), Fail> {
    let alloc = rt.alloc();
    let base = [("a.txt", 1), ("b.txt", 2), ("c.txt", 3), ("k.txt", 6)];
    let view = View {
        prior1: listing(alloc, &base)?,
        prior2: listing(alloc, &base)?,
        base1: listing(alloc, &base)?,
        base2: listing(alloc, &base)?,
        now1: listing(
            alloc,
            &[("a.txt", 1), ("b.txt", 2), ("k.txt", 6), ("n.txt", 3)],
        )?,
        now2: listing(
            alloc,
            &[("a.txt", 1), ("b.txt", 3), ("c.txt", 3), ("k.txt", 6)],
        )?,
        names1: Names::new(alloc),
        names2: Names::new(alloc),
    };
    let mut walk = Walk::new(&view);
    for text in ["a.txt", "b.txt", "c.txt", "k.txt", "n.txt"] {
        let Some(cell) = walk.next() else {
            return Err(Fail::new("the walk ends too early"));
        };
        assert_eq!(rt; cell.path.as_bytes(), text.as_bytes());
        let alone = text == "n.txt";
        assert_eq!(rt;
            cell.now1.is_some() && cell.now2.is_none() && cell.base1.is_none(),
            alone
        );
    }
    assert!(rt; walk.next().is_none());
    Ok(())
}
