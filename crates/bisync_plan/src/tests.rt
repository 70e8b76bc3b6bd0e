//! Plans by worked examples.

use crate::listed_views::{Row, conflict_rule, listing, view};
use crate::planning::{plan, plan_resync};
use crate::told_plans::told;
use bisync_filter::Rules;
use bisync_tree::{Compare, Limits, Loser, Prefer, Window};
use std::alloc::Global;
use std::test::Fail;

/// How a run is made.
#[derive(Clone, Copy)]
struct Settings {
    prefer: Prefer,
    loser: Loser,
    suffix: &'static str,
    check: bool,
    limit: u64,
    /// In which times are compared.
    window: Window,
    /// Whether Path2 keeps times in that window, too, and not to the nanosecond.
    is_coarse: bool,
}

const PLAIN: Settings = Settings {
    prefer: Prefer::Nobody,
    loser: Loser::Num,
    suffix: "conflict",
    check: true,
    limit: 2_147_483_648,
    window: Window::Ns1,
    is_coarse: false,
};

/// What the plan of a run says, with these rules, base listings and files.
fn planned<'a>(
    alloc: Global,
    settings: Settings,
    rules: &str,
    base1: &[Row<'a>],
    base2: &[Row<'a>],
    one: &[Row<'a>],
    two: &[Row<'a>],
) -> Result<String, Fail> {
    let rules = match Rules::read(alloc, rules.as_bytes()) {
        Ok(rules) => rules,
        Err(_) => return Err(Fail::new("the rules aren't read")),
    };
    let view = view(alloc, &rules, base1, base2, one, two)?;
    let conflict = conflict_rule(alloc, settings.prefer, settings.loser, settings.suffix)?;
    let compare = Compare {
        size: true,
        time: true,
        hash: false,
        window: settings.window,
    };
    let limits = Limits {
        listing: settings.limit,
        ..Limits::REAL
    };
    let kept = if settings.is_coarse {
        settings.window
    } else {
        Window::Ns1
    };
    let made = plan(
        alloc,
        &conflict,
        &compare,
        settings.check,
        &rules,
        &view,
        1,
        &limits,
        Window::Ns1,
        kept,
    );
    told(alloc, &made)
}

#[test]
fn listings_are_within_the_limit(rt: HostRuntime) -> Result<(), Fail> {
    let base: &[Row<'_>] = &[("f", 1, 10), ("k", 1, 10)];
    let now: &[Row<'_>] = &[("f", 2, 90), ("k", 1, 10)];
    let kept = "1: f 2 9000000000\n1: k 1 1000000000\n2: f 2 9000000000\n2: k 1 1000000000\n";
    for (limit, lines) in [
        (2_147_483_648, kept),
        (27, "listing 1 has 156\n"),
        (155, "listing 1 has 156\n"),
        (156, kept),
    ] {
        let settings = Settings { limit, ..PLAIN };
        let made = planned(rt.alloc(), settings, "", base, base, now, now)?;
        assert_eq!(rt; made.as_str(), lines);
    }
    Ok(())
}

#[test]
fn conflicts_are_settled_in_order(rt: HostRuntime) -> Result<(), Fail> {
    let base: &[Row<'_>] = &[("a.txt", 1, 10), ("k.txt", 6, 10)];
    let one: &[Row<'_>] = &[("a.txt", 2, 50), ("k.txt", 6, 10)];
    let two: &[Row<'_>] = &[("a.txt", 3, 60)];
    let cases = [
        (
            Prefer::Nobody,
            Loser::Num,
            "",
            "delete 1 k.txt 6\nrename 1 a.txt a.txt.conflict1 2\ncopy 1 a.txt.conflict1 2\nrename 2 a.txt a.txt.conflict2 3\ncopy 2 a.txt.conflict2 3\n1: a.txt.conflict1 2 5000000000\n1: a.txt.conflict2 3 6000000000\n2: a.txt.conflict1 2 5000000000\n2: a.txt.conflict2 3 6000000000\n",
        ),
        (
            Prefer::Newer,
            Loser::Num,
            "",
            "delete 1 k.txt 6\nrename 1 a.txt a.txt.conflict1 2\ncopy 1 a.txt.conflict1 2\ncopy 2 a.txt 3\n1: a.txt 3 6000000000\n1: a.txt.conflict1 2 5000000000\n2: a.txt 3 6000000000\n2: a.txt.conflict1 2 5000000000\n",
        ),
        (
            Prefer::Newer,
            Loser::Delete,
            "",
            "delete 1 k.txt 6\ncopy 2 a.txt 3\n1: a.txt 3 6000000000\n2: a.txt 3 6000000000\n",
        ),
        (
            Prefer::Nobody,
            Loser::Num,
            "+ *.txt\n- *\n",
            "delete 1 k.txt 6\nrename 1 a.txt a.txt.conflict1 2\ncopy 1 a.txt.conflict1 2\nrename 2 a.txt a.txt.conflict2 3\ncopy 2 a.txt.conflict2 3\n",
        ),
    ];
    for (prefer, loser, rules, lines) in cases {
        let settings = Settings {
            prefer,
            loser,
            ..PLAIN
        };
        let made = planned(rt.alloc(), settings, rules, base, base, one, two)?;
        assert_eq!(rt; made.as_str(), lines);
    }
    Ok(())
}

#[test]
fn given_names_that_do_not_pass_are_not_listed(rt: HostRuntime) -> Result<(), Fail> {
    let base: &[Row<'_>] = &[("a.txt", 1, 10), ("k.txt", 6, 10)];
    let one: &[Row<'_>] = &[("a.txt", 2, 50), ("k.txt", 6, 10)];
    let two: &[Row<'_>] = &[("a.txt", 3, 60), ("k.txt", 6, 10)];
    let made = planned(rt.alloc(), PLAIN, "+ *.txt\n- *\n", base, base, one, two)?;
    assert_eq!(rt;
        made.as_str(),
        "rename 1 a.txt a.txt.conflict1 2\ncopy 1 a.txt.conflict1 2\nrename 2 a.txt a.txt.conflict2 3\ncopy 2 a.txt.conflict2 3\n1: k.txt 6 1000000000\n2: k.txt 6 1000000000\n"
    );
    Ok(())
}

#[test]
fn a_side_lists_the_time_that_it_keeps(rt: HostRuntime) -> Result<(), Fail> {
    let base: &[Row<'_>] = &[("k", 1, 20)];
    let one: &[Row<'_>] = &[("f", 1, 57), ("k", 1, 20)];
    let settings = Settings {
        window: Window::S2,
        is_coarse: true,
        ..PLAIN
    };
    let made = planned(rt.alloc(), settings, "", base, base, one, base)?;
    assert_eq!(rt;
        made.as_str(),
        "copy 1 f 1\n1: f 1 5700000000\n1: k 1 2000000000\n2: f 1 4000000000\n2: k 1 2000000000\n"
    );
    Ok(())
}

#[test]
fn listings_that_differ_are_told_where_it_is_checked(rt: HostRuntime) -> Result<(), Fail> {
    let one: &[Row<'_>] = &[("f", 1, 10), ("k", 1, 10)];
    let two: &[Row<'_>] = &[("f", 2, 10), ("k", 1, 10)];
    let kept = "1: f 1 1000000000\n1: k 1 1000000000\n2: f 2 1000000000\n2: k 1 1000000000\n";
    for (check, lines) in [(true, "apart at f 1 2\n"), (false, kept)] {
        let settings = Settings { check, ..PLAIN };
        let made = planned(rt.alloc(), settings, "", one, two, one, two)?;
        assert_eq!(rt; made.as_str(), lines);
    }
    Ok(())
}

/// What the plan of a run says whose bases are equal and by whose rules every path passes.
fn made<'a>(
    alloc: Global,
    settings: Settings,
    base: &[Row<'a>],
    one: &[Row<'a>],
    two: &[Row<'a>],
) -> Result<String, Fail> {
    planned(alloc, settings, "", base, base, one, two)
}

#[test]
fn files_are_copied_and_deleted(rt: HostRuntime) -> Result<(), Fail> {
    let alloc = rt.alloc();
    let base: &[Row<'_>] = &[("a", 1, 10), ("k", 1, 10)];
    let changed: &[Row<'_>] = &[("a", 2, 90), ("k", 1, 10)];
    let kept: &[Row<'_>] = &[("k", 1, 10)];
    let all: &[Row<'_>] = &[("f1", 1, 10), ("f2", 1, 10), ("f3", 1, 10), ("f4", 1, 10)];
    let half: &[Row<'_>] = &[("f3", 1, 10), ("f4", 1, 10)];
    let alone: &[Row<'_>] = &[("f", 1, 10)];
    let new: &[Row<'_>] = &[("f", 2, 50)];
    let cases = [
        (
            base,
            kept,
            changed,
            "copy 2 a 2\n1: a 2 9000000000\n1: k 1 1000000000\n2: a 2 9000000000\n2: k 1 1000000000\n",
        ),
        (
            all,
            half,
            all,
            "delete 2 f1 1\ndelete 2 f2 1\n1: f3 1 1000000000\n1: f4 1 1000000000\n2: f3 1 1000000000\n2: f4 1 1000000000\n",
        ),
        (
            alone,
            new,
            alone,
            "copy 1 f 2\n1: f 2 5000000000\n2: f 2 5000000000\n",
        ),
        (alone, alone, &[], "delete 1 f 1\n"),
    ];
    for (base, one, two, lines) in cases {
        assert_eq!(rt; made(alloc, PLAIN, base, one, two)?.as_str(), lines);
    }
    Ok(())
}

#[test]
fn losers_get_names_that_are_free(rt: HostRuntime) -> Result<(), Fail> {
    let alloc = rt.alloc();
    let marked = Settings {
        prefer: Prefer::Larger,
        loser: Loser::Pathname,
        suffix: "path",
        ..PLAIN
    };
    let base: &[Row<'_>] = &[("a", 1, 10), ("a.path1", 1, 10)];
    let one: &[Row<'_>] = &[("a", 2, 50), ("a.path1", 1, 10)];
    let two: &[Row<'_>] = &[("a", 3, 60), ("a.path1", 1, 10)];
    assert_eq!(rt;
        made(alloc, marked, base, one, two)?.as_str(),
        "rename 1 a a.path1-2 2\ncopy 1 a.path1-2 2\ncopy 2 a 3\n1: a 3 6000000000\n1: a.path1 1 1000000000\n1: a.path1-2 2 5000000000\n2: a 3 6000000000\n2: a.path1 1 1000000000\n2: a.path1-2 2 5000000000\n"
    );
    let base: &[Row<'_>] = &[("a", 1, 10), ("a.conflict1", 1, 10)];
    assert_eq!(rt;
        made(alloc, PLAIN, base, &[("a", 2, 50)], &[("a", 3, 60)])?.as_str(),
        "rename 1 a a.conflict2 2\ncopy 1 a.conflict2 2\nrename 2 a a.conflict3 3\ncopy 2 a.conflict3 3\n1: a.conflict2 2 5000000000\n1: a.conflict3 3 6000000000\n2: a.conflict2 2 5000000000\n2: a.conflict3 3 6000000000\n"
    );
    let letters = vec![in alloc; b'a'; 4096]?;
    let long = std::str::from_utf8(letters.as_slice())?;
    let told = made(
        alloc,
        PLAIN,
        &[(long, 1, 10)],
        &[(long, 2, 50)],
        &[(long, 3, 60)],
    )?;
    assert_eq!(rt; told.as_str(), "too long on 1\n");
    Ok(())
}

#[test]
fn times_are_compared_in_windows(rt: HostRuntime) -> Result<(), Fail> {
    let alloc = rt.alloc();
    let seconds = Settings {
        prefer: Prefer::Newer,
        window: Window::S1,
        ..PLAIN
    };
    let base: &[Row<'_>] = &[("f", 1, 100)];
    let cases: [(Row<'_>, Row<'_>, &str); 3] = [
        (
            ("f", 2, 102),
            ("f", 3, 109),
            "rename 1 f f.conflict1 2\ncopy 1 f.conflict1 2\nrename 2 f f.conflict2 3\ncopy 2 f.conflict2 3\n1: f.conflict1 2 10200000000\n1: f.conflict2 3 10900000000\n2: f.conflict1 2 10200000000\n2: f.conflict2 3 10900000000\n",
        ),
        (
            ("f", 2, 102),
            ("f", 3, 111),
            "rename 1 f f.conflict1 2\ncopy 1 f.conflict1 2\ncopy 2 f 3\n1: f 3 11100000000\n1: f.conflict1 2 10200000000\n2: f 3 11100000000\n2: f.conflict1 2 10200000000\n",
        ),
        (
            ("f", 1, 102),
            ("f", 1, 109),
            "1: f 1 10200000000\n2: f 1 10900000000\n",
        ),
    ];
    for (one, two, lines) in cases {
        assert_eq!(rt; made(alloc, seconds, base, &[one], &[two])?.as_str(), lines);
    }
    Ok(())
}

/// What the plan of a resync says.
fn resync_planned(
    alloc: Global,
    mode: Prefer,
    one: &[Row<'_>],
    two: &[Row<'_>],
) -> Result<String, Fail> {
    let now1 = listing(alloc, one)?;
    let now2 = listing(alloc, two)?;
    let compare = Compare {
        size: true,
        time: true,
        hash: false,
        window: Window::Ns1,
    };
    let made = plan_resync(
        alloc,
        mode,
        &compare,
        &now1,
        &now2,
        1,
        &Limits::REAL,
        Window::Ns1,
        Window::Ns1,
    );
    told(alloc, &made)
}

#[test]
fn a_resync_copies_from_the_winner(rt: HostRuntime) -> Result<(), Fail> {
    let none: &[Row<'_>] = &[];
    assert_eq!(rt;
        resync_planned(rt.alloc(), Prefer::Path1, none, none)?.as_str(),
        ""
    );
    let one: &[Row<'_>] = &[("f", 1, 10), ("g", 1, 10)];
    let two: &[Row<'_>] = &[("f", 2, 10), ("h", 3, 10)];
    assert_eq!(rt;
        resync_planned(rt.alloc(), Prefer::Newer, one, two)?.as_str(),
        "copy 1 f 1\ncopy 1 g 1\ncopy 2 h 3\n1: f 1 1000000000\n1: g 1 1000000000\n1: h 3 1000000000\n2: f 1 1000000000\n2: g 1 1000000000\n2: h 3 1000000000\n"
    );
    Ok(())
}
