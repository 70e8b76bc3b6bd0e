//! Winners, losers and their names, by worked examples.

ghost use Rattle.std.specs.Prelude.{◌≡◌, IfOk};
ghost use Rattle.std.specs.List.{list_all};
ghost use Rattle.bisync_tree.specs.Ranges.{is_suffix, is_suffix_byte, IsSuffix, HasSuffixes};

use crate::losers::loses;
use crate::winners::winner_of_cell;
use crate::{Given, NameFault, give_names, winner};
use bisync_text::{Path, Text};
use bisync_tree::{
    Compare, ConflictRule, Entry, Listing, Loser, Names, Prefer, Side, View, Walk, Window,
};
use std::alloc::Global;
use std::test::Fail;

const SECOND: i64 = 1_000_000_000;

/// An entry of this size and time.
fn entry(size: u64, time: i64) -> Entry {
    Entry {
        size,
        time,
        hash: None,
    }
}

/// Sizes and times are compared in this window.
fn compare(window: Window) -> Compare {
    Compare {
        size: true,
        time: true,
        hash: false,
        window,
    }
}

/// A path with its size and its time in tenths of a second.
type Row<'a> = (&'a str, u64, i64);

/// The listing of rows in byte order of their paths.
fn listing(alloc: Global, rows: &[Row<'_>]) -> Result<Listing, Fail> {
    let mut listing = Listing::new(alloc);
    for (text, size, tenths) in rows {
        let path = Path::read(alloc, text.as_bytes())?;
        if !listing.may_push(&path) {
            return Err(Fail::new("the paths don't rise"));
        }
        listing.push(path, entry(*size, tenths.wrapping_mul(SECOND / 10)))?;
    }
    Ok(listing)
}

/// The paths of rows.
fn names(alloc: Global, rows: &[Row<'_>]) -> Result<Names, Fail> {
    let mut names = Names::new(alloc);
    for (text, _, _) in rows {
        let path = Path::read(alloc, text.as_bytes())?;
        if !names.may_push(&path) {
            return Err(Fail::new("the paths don't rise"));
        }
        names.push(path)?;
    }
    Ok(names)
}

/// A view in which every path passes, with one base for both sides.
fn view(alloc: Global, base: &[Row<'_>], one: &[Row<'_>], two: &[Row<'_>]) -> Result<View, Fail> {
    Ok(View {
        prior1: listing(alloc, base)?,
        prior2: listing(alloc, base)?,
        base1: listing(alloc, base)?,
        base2: listing(alloc, base)?,
        now1: listing(alloc, one)?,
        now2: listing(alloc, two)?,
        names1: names(alloc, one)?,
        names2: names(alloc, two)?,
    })
}

/// Whether a byte may stand in a suffix.
fn is_suffix_byte(b: u8) -> bool
    ensures { result ≡ is_suffix_byte b }
{
    b != b'/' && b != b',' && b != 0
}

/// Whether all bytes may.
fn has_suffix_bytes(text: &str) -> bool
    ensures { result ≡ list_all is_suffix_byte text.now }
{
    text.as_bytes().iter().all(|b| is_suffix_byte(*b))
}

/// Whether the text may be a suffix.
fn is_suffix(text: &str) -> bool
    ensures { result ≡ is_suffix text.now }
{
    if text.is_empty() || text.len() > 64 {
        return false;
    }
    has_suffix_bytes(text)
}

/// The suffix of this text.
fn suffix(alloc: Global, text: &str) -> Result<Text, Fail>
    ensures { IfOk result IsSuffix }
{
    if !is_suffix(text) {
        return Err(Fail::new("the text is no suffix"));
    }
    Ok(Text::from_bytes(alloc, text.as_bytes())?)
}

/// A rule of these suffixes.
fn rule(
    alloc: Global,
    prefer: Prefer,
    loser: Loser,
    suffixes: (&str, &str),
) -> Result<ConflictRule, Fail>
    ensures { IfOk result HasSuffixes }
{
    Ok(ConflictRule {
        prefer,
        loser,
        suffix1: suffix(alloc, suffixes.0)?,
        suffix2: suffix(alloc, suffixes.1)?,
    })
}

/// The names of the losers of a view by this rule, where times are compared in this window: a line for
/// each, with its path, its side, and its name.
fn told(alloc: Global, view: &View, rule: &ConflictRule, window: Window) -> Result<Vec<u8>, Fail>
    requires { HasSuffixes rule.now }
{
    let mut lines = Vec::new(alloc);
    let Ok(names) = give_names(alloc, rule, &compare(window), view) else {
        return Err(Fail::new("there are no names"));
    };
    for given in &names {
        lines.extend_from_slice(given.path.as_bytes())?;
        lines.extend_from_slice(match given.side {
            Side::One => b" 1 ",
            Side::Two => b" 2 ",
        })?;
        lines.extend_from_slice(given.name.as_bytes())?;
        lines.push(b'\n')?;
    }
    Ok(lines)
}

#[test]
fn each_preference_has_its_winner(rt: HostRuntime) {
    let early = entry(2, 10 * SECOND + 200_000_000);
    let late = entry(3, 10 * SECOND + 900_000_000);
    let next = entry(3, 11 * SECOND + 100_000_000);
    let path1 = Some(Side::One);
    let path2 = Some(Side::Two);
    // the preference, the window, Path1's entry, Path2's, and who wins
    let cases = [
        (Prefer::Nobody, Window::Ns1, early, late, None),
        (Prefer::Path1, Window::S1, early, early, path1),
        (Prefer::Path2, Window::S1, early, early, path2),
        (Prefer::Newer, Window::Ns1, early, late, path2),
        (Prefer::Newer, Window::S1, early, late, None),
        (Prefer::Newer, Window::S1, early, next, path2),
        (Prefer::Newer, Window::S1, next, early, path1),
        (Prefer::Older, Window::S1, early, next, path1),
        (Prefer::Older, Window::S1, early, late, None),
        (Prefer::Larger, Window::S1, early, late, path2),
        (Prefer::Larger, Window::S1, late, next, None),
        (Prefer::Smaller, Window::S1, early, late, path1),
        (Prefer::Smaller, Window::S1, next, late, None),
    ];
    for (prefer, window, one, two, expected) in cases {
        assert_eq!(rt; winner(prefer, window, &one, &two), expected);
    }
}

#[test]
fn each_loser_gets_its_name(rt: HostRuntime) -> Result<(), Fail> {
    let alloc = rt.alloc();
    let base = [("a.txt", 1, 1), ("k", 1, 1)];
    // both times are in one window of 2 s
    let one = [("a.txt", 2, 60), ("k", 1, 1)];
    let two = [("a.txt", 3, 70), ("k", 1, 1)];
    let view = view(alloc, &base, &one, &two)?;
    let both = "a.txt 1 a.txt.conflict1\na.txt 2 a.txt.conflict2\n";
    let numbers = "a.txt 1 a.txt.a1\na.txt 2 a.txt.b1\n";
    let marks = "a.txt 1 a.txt.a\na.txt 2 a.txt.b\n";
    let path1 = "a.txt 1 a.txt.conflict1\n";
    let cases = [
        (Prefer::Nobody, Loser::Num, "conflict", "conflict", both),
        (Prefer::Nobody, Loser::Delete, "conflict", "conflict", both),
        (
            Prefer::Nobody,
            Loser::Pathname,
            "conflict",
            "conflict",
            both,
        ),
        (Prefer::Newer, Loser::Num, "conflict", "conflict", both),
        (Prefer::Nobody, Loser::Num, "a", "b", numbers),
        (Prefer::Nobody, Loser::Pathname, "a", "b", marks),
        (Prefer::Larger, Loser::Num, "conflict", "conflict", path1),
        (Prefer::Larger, Loser::Delete, "conflict", "conflict", ""),
    ];
    for (prefer, loser, suffix1, suffix2, expected) in cases {
        let rule = rule(alloc, prefer, loser, (suffix1, suffix2))?;
        assert_eq!(rt;
            told(alloc, &view, &rule, Window::S2)?.as_slice(),
            expected.as_bytes()
        );
    }
    Ok(())
}

/// A run: how conflicts are settled, in which window times are compared, what both bases have and what
/// Path1 and Path2 have now, and the names.
#[derive(Clone, Copy)]
struct Example<'a> {
    prefer: Prefer,
    loser: Loser,
    suffix: &'a str,
    window: Window,
    base: &'a [Row<'a>],
    one: &'a [Row<'a>],
    two: &'a [Row<'a>],
    names: &'a str,
}

const PLAIN: Example<'static> = Example {
    prefer: Prefer::Nobody,
    loser: Loser::Num,
    suffix: "conflict",
    window: Window::Ns1,
    base: &[("f", 1, 10), ("k", 1, 10)],
    one: &[],
    two: &[],
    names: "",
};

/// Whether a run gives these names.
fn gives(alloc: Global, example: &Example<'_>) -> Result<bool, Fail> {
    let view = view(alloc, example.base, example.one, example.two)?;
    let suffixes = (example.suffix, example.suffix);
    let rule = rule(alloc, example.prefer, example.loser, suffixes)?;
    let names = told(alloc, &view, &rule, example.window)?;
    Ok(names.as_slice() == example.names.as_bytes())
}

#[test]
fn runs_without_losers_give_no_names(rt: HostRuntime) -> Result<(), Fail> {
    let same = Example {
        one: &[("f", 2, 90), ("k", 1, 10)],
        two: &[("f", 2, 90), ("k", 1, 10)],
        ..PLAIN
    };
    assert!(rt; gives(rt.alloc(), &same)?);
    let gone = Example {
        one: &[("k", 1, 10)],
        two: &[("f", 2, 90), ("k", 1, 10)],
        ..PLAIN
    };
    assert!(rt; gives(rt.alloc(), &gone)?);
    let deleted = Example {
        one: &[("k", 1, 10)],
        two: &[("f", 1, 10), ("k", 1, 10)],
        ..PLAIN
    };
    assert!(rt; gives(rt.alloc(), &deleted)?);
    let changed = Example {
        one: &[("f", 2, 50), ("k", 1, 10)],
        two: &[("f", 1, 10), ("k", 1, 10)],
        ..PLAIN
    };
    assert!(rt; gives(rt.alloc(), &changed)?);
    let emptied = Example {
        one: &[("f", 1, 10), ("k", 1, 10)],
        ..PLAIN
    };
    assert!(rt; gives(rt.alloc(), &emptied)?);
    let in_one_window = Example {
        window: Window::S1,
        base: &[("f", 1, 100)],
        one: &[("f", 1, 102)],
        two: &[("f", 1, 109)],
        ..PLAIN
    };
    assert!(rt; gives(rt.alloc(), &in_one_window)?);
    Ok(())
}

#[test]
fn runs_with_losers_give_these_names(rt: HostRuntime) -> Result<(), Fail> {
    let marked = Example {
        prefer: Prefer::Larger,
        loser: Loser::Pathname,
        suffix: "path",
        base: &[("a", 1, 10), ("a.path1", 1, 10), ("k", 1, 10)],
        one: &[("a", 2, 50), ("a.path1", 1, 10), ("k", 1, 10)],
        two: &[("a", 3, 60), ("a.path1", 1, 10), ("k", 1, 10)],
        names: "a 1 a.path1-2\n",
        ..PLAIN
    };
    assert!(rt; gives(rt.alloc(), &marked)?);
    let tied = Example {
        prefer: Prefer::Newer,
        window: Window::S1,
        one: &[("f", 2, 102), ("k", 1, 10)],
        two: &[("f", 3, 109), ("k", 1, 10)],
        names: "f 1 f.conflict1\nf 2 f.conflict2\n",
        ..PLAIN
    };
    assert!(rt; gives(rt.alloc(), &tied)?);
    let newer = Example {
        two: &[("f", 3, 111), ("k", 1, 10)],
        names: "f 1 f.conflict1\n",
        ..tied
    };
    assert!(rt; gives(rt.alloc(), &newer)?);
    Ok(())
}

#[test]
fn a_name_that_the_base_has_is_taken(rt: HostRuntime) -> Result<(), Fail> {
    let alloc = rt.alloc();
    let base = [("a", 1, 1), ("a.conflict1", 1, 1), ("k", 1, 1)];
    let one = [("a", 2, 5), ("k", 1, 1)];
    let two = [("a", 3, 6), ("k", 1, 1)];
    let view = view(alloc, &base, &one, &two)?;
    let rule = rule(alloc, Prefer::Nobody, Loser::Num, ("conflict", "conflict"))?;
    let expected = b"a 1 a.conflict2\na 2 a.conflict3\n".as_slice();
    assert_eq!(rt; told(alloc, &view, &rule, Window::S2)?.as_slice(), expected);
    Ok(())
}

#[test]
fn a_name_that_a_tree_has_is_taken(rt: HostRuntime) -> Result<(), Fail> {
    let alloc = rt.alloc();
    let base = [("a", 1, 1), ("k", 1, 1)];
    let one = [("a", 2, 5), ("b", 2, 5), ("k", 1, 1)];
    let two = [("a", 3, 6), ("a.path1", 1, 1), ("b", 3, 6), ("k", 1, 1)];
    let view = view(alloc, &base, &one, &two)?;
    let rule = rule(alloc, Prefer::Larger, Loser::Pathname, ("path", "path"))?;
    let expected = b"a 1 a.path1-2\nb 1 b.path1\n".as_slice();
    assert_eq!(rt; told(alloc, &view, &rule, Window::S2)?.as_slice(), expected);
    Ok(())
}

#[test]
fn a_name_of_more_than_4096_bytes_is_refused(rt: HostRuntime) -> Result<(), Fail> {
    let alloc = rt.alloc();
    let rule = rule(alloc, Prefer::Nobody, Loser::Num, ("conflict", "conflict"))?;
    // 10 bytes follow the path: a path of 4,086 bytes has a name, one of 4,087 none
    for (len, fits) in [(4086, true), (4087, false), (4096, false)] {
        let letters = vec![in alloc; b'a'; len]?;
        let text = std::str::from_utf8(letters.as_slice())?;
        let view = view(alloc, &[], &[(text, 1, 1)], &[(text, 2, 1)])?;
        match give_names(alloc, &rule, &compare(Window::Ns1), &view) {
            Ok(given) => assert!(rt; fits && given.len() == 2),
            Err(NameFault::TooLong(side, path)) => {
                assert!(rt; !fits && side == Side::One && path.as_bytes() == letters.as_slice());
            }
            Err(NameFault::OutOfMemory) => return Err(Fail::new("memory was refused")),
        }
    }
    Ok(())
}

#[test]
fn a_cell_tells_its_winner_and_its_losers(rt: HostRuntime) -> Result<(), Fail> {
    let alloc = rt.alloc();
    let rule = rule(alloc, Prefer::Smaller, Loser::Num, ("conflict", "conflict"))?;
    let compare = compare(Window::Ns1);
    let base = [("a", 1, 1), ("b", 1, 1)];
    let view = view(
        alloc,
        &base,
        &[("a", 4, 2), ("b", 1, 1)],
        &[("a", 3, 2), ("b", 2, 2)],
    )?;
    let mut walk = Walk::new(&view);
    // the path, the side of the smaller file, and which sides' files get a name
    for (text, smaller, one, two) in [
        ("a", Side::Two, true, false),
        ("b", Side::One, false, false),
    ] {
        let Some(cell) = walk.next() else {
            return Err(Fail::new("the walk ends too early"));
        };
        assert_eq!(rt; cell.path.as_bytes(), text.as_bytes());
        assert_eq!(rt; winner_of_cell(&rule, &compare, &cell), Some(smaller));
        assert_eq!(rt; loses(&rule, &compare, &cell, Side::One), one);
        assert_eq!(rt; loses(&rule, &compare, &cell, Side::Two), two);
    }
    Ok(())
}
