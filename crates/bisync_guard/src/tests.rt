use crate::{Guard, decide};
use bisync_text::{Path, Text};
use bisync_tree::{Compare, Entry, GuardRule, Listing, Names, Side, View, Window};
use std::alloc::Global;
use std::test::Fail;

const SIZES: Compare = Compare {
    size: true,
    time: false,
    hash: false,
    window: Window::Ns1,
};

/// The check filename, the limit in percent, and whether a run is forced.
type Rule<'a> = (Option<&'a str>, u8, bool);

/// The rules, then the paths in both bases, on Path1 and on Path2, where a star marks a change.
type Row<'a> = (Rule<'a>, &'a str, &'a str, &'a str, &'a str);

const HALF: Rule<'static> = (None, 50, false);

const FORCED: Rule<'static> = (None, 50, true);

const CHECKED: Rule<'static> = (Some("RCLONE_TEST"), 50, false);

/// A listing of the paths in a text.
fn listing(alloc: Global, words: &str) -> Result<Listing, Fail> {
    let mut listing = Listing::new(alloc);
    for word in words.split_whitespace() {
        let text = word.trim_end_matches('*');
        let path = Path::read(alloc, text.as_bytes())?;
        if !listing.may_push(&path) {
            return Err(Fail::new("the paths don't rise"));
        }
        let entry = Entry {
            size: word.len() as u64,
            time: 0,
            hash: None,
        };
        listing.push(path, entry)?;
    }
    Ok(listing)
}

/// A view whose base listings are equal.
fn view(alloc: Global, prior: &str, now1: &str, now2: &str) -> Result<View, Fail> {
    Ok(View {
        prior1: listing(alloc, prior)?,
        prior2: listing(alloc, prior)?,
        base1: listing(alloc, prior)?,
        base2: listing(alloc, prior)?,
        now1: listing(alloc, now1)?,
        now2: listing(alloc, now2)?,
        names1: Names::new(alloc),
        names2: Names::new(alloc),
    })
}

fn side_text(side: Side) -> &'static str {
    match side {
        Side::One => "One",
        Side::Two => "Two",
    }
}

/// The guard in words.
fn guard_text(alloc: Global, guard: &Option<Guard>) -> Result<String, Fail> {
    let text = match guard {
        None => format!(in alloc; "none")?,
        Some(Guard::CheckAccess(side, None)) => {
            format!(in alloc; "CheckAccess {}", side_text(*side))?
        }
        Some(Guard::CheckAccess(side, Some(path))) => {
            let name = std::str::from_utf8(path.as_bytes())?;
            format!(in alloc; "CheckAccess {} {name}", side_text(*side))?
        }
        Some(Guard::EmptyCurrent(side)) => format!(in alloc; "EmptyCurrent {}", side_text(*side))?,
        Some(Guard::TooManyDeletes(side, gone, base)) => {
            format!(in alloc; "TooManyDeletes {} {gone} {base}", side_text(*side))?
        }
        Some(Guard::AllChanged(side, kept)) => {
            format!(in alloc; "AllChanged {} {kept}", side_text(*side))?
        }
    };
    Ok(text)
}

fn decided(alloc: Global, row: &Row<'_>) -> Result<String, Fail> {
    let ((check, max_delete, force), prior, now1, now2, _) = *row;
    if max_delete > 100 {
        return Err(Fail::new("no percentage"));
    }
    let check = match check {
        Some(name) => Some(Text::from_bytes(alloc, name.as_bytes())?),
        None => None,
    };
    let rule = GuardRule {
        check,
        max_delete,
        force,
    };
    let view = view(alloc, prior, now1, now2)?;
    guard_text(alloc, &decide(alloc, &rule, &SIZES, &view)?)
}

#[test]
fn counts_what_is_gone_or_changed(rt: HostRuntime) -> Result<(), Fail> {
    let five = "f1 f2 f3 f4 f5";
    let rows: [Row; 23] = [
        (HALF, five, "f1 f2", five, "TooManyDeletes One 3 5"),
        (HALF, five, five, "f1 f2", "TooManyDeletes Two 3 5"),
        (HALF, "f1 f2 f3 f4", "f1 f2", "f1 f2 f3 f4", "none"),
        (HALF, "a k", "k", "a* k", "none"),
        ((None, 100, false), five, "f1", five, "none"),
        (
            (None, 0, false),
            five,
            "f1 f2 f3 f4",
            five,
            "TooManyDeletes One 1 5",
        ),
        (FORCED, five, "f1 f2", five, "none"),
        (HALF, "f", "f*", "f", "AllChanged One 1"),
        (HALF, "f", "f", "f*", "AllChanged Two 1"),
        (FORCED, "f", "f*", "f", "none"),
        (HALF, "f k", "f* k", "f k", "none"),
        (HALF, "f k", "f* n", "f k", "AllChanged One 1"),
        (HALF, "f k", "n", "f k", "TooManyDeletes One 2 2"),
        ((None, 100, false), "f k", "n", "f k", "none"),
        (
            HALF,
            five,
            "f1* f2* f3* f4* f5*",
            "f1",
            "TooManyDeletes Two 4 5",
        ),
        (HALF, "f", "f", "", "EmptyCurrent Two"),
        (FORCED, "f", "", "", "EmptyCurrent One"),
        (HALF, "f k", "f* k", "f* k", "none"),
        (HALF, "a.txt k", "a.txt* k", "a.txt** k", "none"),
        (HALF, "a a.path1 k", "a* a.path1 k", "a** a.path1 k", "none"),
        (HALF, "a a.conflict1 k", "a* k", "a** k", "none"),
        (HALF, "a.txt k.txt", "a.txt* k.txt", "a.txt** k.txt", "none"),
        (HALF, "f", "f", "f", "none"),
    ];
    for row in rows.iter() {
        let found = decided(rt.alloc(), row)?;
        assert_eq!(rt; found.as_str(), row.4);
    }
    Ok(())
}

#[test]
fn checks_access(rt: HostRuntime) -> Result<(), Fail> {
    let both = "RCLONE_TEST k";
    let deep = "a/RCLONE_TEST d/RCLONE_TEST k";
    let rows: [Row; 11] = [
        (CHECKED, both, both, both, "none"),
        (CHECKED, both, both, "k", "CheckAccess Two RCLONE_TEST"),
        (CHECKED, both, "k", both, "CheckAccess One RCLONE_TEST"),
        (CHECKED, "k", "k", "k", "CheckAccess One"),
        (CHECKED, deep, deep, deep, "none"),
        (
            CHECKED,
            "k",
            "a/RCLONE_TEST c/RCLONE_TEST k",
            "a/RCLONE_TEST b/RCLONE_TEST k",
            "CheckAccess One b/RCLONE_TEST",
        ),
        (CHECKED, "k", "RCLONE_TEST/x k", "k", "CheckAccess One"),
        (CHECKED, "k", "k xRCLONE_TEST", "k", "CheckAccess One"),
        (CHECKED, both, both, "", "CheckAccess Two RCLONE_TEST"),
        (
            (Some("RCLONE_TEST"), 50, true),
            both,
            "k",
            both,
            "CheckAccess One RCLONE_TEST",
        ),
        (HALF, both, both, "k", "none"),
    ];
    for row in rows.iter() {
        let found = decided(rt.alloc(), row)?;
        assert_eq!(rt; found.as_str(), row.4);
    }
    Ok(())
}
