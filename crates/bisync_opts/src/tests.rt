use crate::{
    CheckOpts, CheckSync, FolderMode, OptFault, OptName, Opts, UsageKind, read_check, read_options,
};
use bisync_text::Text;
use bisync_tree::{Compare, ConflictRule, Loser, Prefer, Window};
use std::alloc::Global;
use std::test::Fail;

// The words between single spaces.
fn words(alloc: Global, line: &str) -> Result<Vec<Text>, OptFault> {
    let mut words = Vec::new(alloc);
    for word in line.split(' ') {
        words.push(Text::from_bytes(alloc, word.as_bytes())?)?;
    }
    Ok(words)
}

fn read(alloc: Global, line: &str) -> Result<Opts, OptFault> {
    read_options(alloc, &words(alloc, line)?)
}

fn check(alloc: Global, line: &str) -> Result<CheckOpts, OptFault> {
    read_check(alloc, &words(alloc, line)?)
}

// Why the words are refused, where they are.
fn refusal(alloc: Global, line: &str) -> Option<OptFault> {
    read(alloc, line).err()
}

const fn value(name: OptName) -> Option<OptFault> {
    Some(OptFault::Usage(UsageKind::Value(name)))
}

const WORDS: Option<OptFault> = Some(OptFault::Usage(UsageKind::Words));

const TOGETHER: Option<OptFault> = Some(OptFault::Usage(UsageKind::Together));

fn is(text: &Text, want: &str) -> bool {
    text.as_bytes() == want.as_bytes()
}

fn has(text: &Option<Text>, want: &str) -> bool {
    match text {
        Some(text) => is(text, want),
        None => want == "none",
    }
}

const fn compare(size: bool, time: bool, hash: bool, window: Window) -> Compare {
    Compare {
        size,
        time,
        hash,
        window,
    }
}

fn has_flags(opts: &Opts, want: bool) -> bool {
    opts.guard.force == want
        && opts.resilient == want
        && opts.recover == want
        && opts.dry_run == want
        && opts.track_renames == want
}

fn has_places(opts: &Opts, workdir: &str, filters: &str, check: &str) -> bool {
    is(&opts.root1, "L")
        && is(&opts.root2, "R")
        && is(&opts.workdir, workdir)
        && has(&opts.filters, filters)
        && has(&opts.guard.check, check)
}

fn has_conflict(rule: &ConflictRule, prefer: Prefer, loser: Loser, one: &str, two: &str) -> bool {
    rule.prefer == prefer && rule.loser == loser && is(&rule.suffix1, one) && is(&rule.suffix2, two)
}

fn has_defaults(opts: &Opts) -> bool {
    has_places(opts, "bisync-work", "none", "none")
        && has_flags(opts, false)
        && has_conflict(
            &opts.conflict,
            Prefer::Nobody,
            Loser::Num,
            "conflict",
            "conflict",
        )
        && opts.resync == None
        && opts.compare == compare(true, true, false, Window::Ns1)
        && opts.guard.max_delete == 50
        && opts.check_sync == CheckSync::Always
        && opts.max_lock == None
        && opts.folders == None
        && has(&opts.backup1, "none")
        && has(&opts.backup2, "none")
}

#[test]
fn two_paths_leave_the_defaults(rt: HostRuntime) -> Result<(), Fail> {
    let opts = read(rt.alloc(), "L R")?;
    assert!(rt; has_defaults(&opts));
    Ok(())
}

const EACH_OPTION: &str = "--compare checksum,size,checksum L --time-window=1ms \
    --conflict-resolve newer --conflict-loser pathname --conflict-suffix a,b --max-delete 007 \
    --force --check-access --check-filename HERE R --check-sync false --filters-file F --workdir W \
    --resilient --recover --max-lock 1h30m --dry-run --create-empty-src-dirs --track-renames";

fn has_each_option(opts: &Opts) -> bool {
    has_places(opts, "W", "F", "HERE")
        && has_flags(opts, true)
        && has_conflict(&opts.conflict, Prefer::Newer, Loser::Pathname, "a", "b")
        && opts.resync == None
        && opts.compare == compare(true, false, true, Window::Ms1)
        && opts.guard.max_delete == 7
        && opts.check_sync == CheckSync::Never
        && opts.max_lock == Some(5_400_000_000_000)
        && opts.folders == Some(FolderMode::Create)
}

#[test]
fn each_option_is_taken(rt: HostRuntime) -> Result<(), Fail> {
    let opts = read(rt.alloc(), EACH_OPTION)?;
    assert!(rt; has_each_option(&opts));
    Ok(())
}

fn roots_are(alloc: Global, line: &str, one: &str, two: &str) -> Result<bool, OptFault> {
    let opts = read(alloc, line)?;
    Ok(is(&opts.root1, one) && is(&opts.root2, two))
}

fn is_dry_resync(alloc: Global, line: &str) -> Result<bool, OptFault> {
    let opts = read(alloc, line)?;
    Ok(opts.dry_run && opts.resync == Some(Prefer::Path1))
}

#[test]
fn words_are_split_as_clap_does(rt: HostRuntime) -> Result<(), Fail> {
    for line in ["-1n L R", "L R -n1", "L -1 R -n", "--resync --dry-run L R"] {
        assert!(rt; is_dry_resync(rt.alloc(), line)?, "{line}");
    }
    for (line, one, two) in [
        ("-- L R", "L", "R"),
        ("L R --", "L", "R"),
        ("--force -- --resync -1", "--resync", "-1"),
        ("L - --force", "L", "-"),
        ("--max-delete=7 L R", "L", "R"),
    ] {
        assert!(rt; roots_are(rt.alloc(), line, one, two)?, "{line}");
    }
    Ok(())
}

#[test]
fn words_are_refused_as_clap_does(rt: HostRuntime) -> Result<(), Fail> {
    let refused = [
        "",
        "L",
        "L R S",
        "L R --nothing",
        "L R --forc",
        "L R --force=true",
        "L R --help",
        "L R -h",
        "L R --version",
        "L R -V",
        "L R --force --force",
        "L R -1 --resync",
        "L R -nn",
        "L R --workdir A --workdir A",
        "L R --compare",
        "L R --max-delete -5",
        "L R -n=1",
    ];
    for line in refused {
        assert_eq!(rt; refusal(rt.alloc(), line), WORDS, "{line}");
    }
    Ok(())
}

#[test]
fn words_that_are_not_utf8_are_refused(rt: HostRuntime) -> Result<(), Fail> {
    let mut words = words(rt.alloc(), "L R --workdir")?;
    words.push(Text::from_bytes(rt.alloc(), b"\xff").map_err(OptFault::from)?)?;
    assert_eq!(rt; read_options(rt.alloc(), &words).err(), WORDS);
    assert_eq!(rt; read_check(rt.alloc(), &words).err(), WORDS);
    Ok(())
}

#[test]
fn the_first_value_that_means_nothing_is_told(rt: HostRuntime) -> Result<(), Fail> {
    let cases = [
        (" R --resync-mode x", OptName::Path1),
        ("L  --compare x", OptName::Path2),
        ("L R --compare x --resync-mode x", OptName::ResyncMode),
        ("L R --resync-mode None", OptName::ResyncMode),
        ("L R --compare size,,modtime", OptName::Compare),
        ("L R --compare  --max-delete 101", OptName::Compare),
        ("L R --compare=sizes", OptName::Compare),
        ("L R --time-window 1", OptName::TimeWindow),
        ("L R --conflict-resolve ", OptName::ConflictResolve),
        ("L R --conflict-loser number", OptName::ConflictLoser),
        (
            "L R --conflict-suffix aaaaaaaaaaaaaaaaaaaaaaaaaaaaaaaaaaaaaaaaaaaaaaaaaaaaaaaaaaaaaaaaa",
            OptName::ConflictSuffix,
        ),
        ("L R --conflict-suffix a,b,c", OptName::ConflictSuffix),
        ("L R --conflict-suffix ,a", OptName::ConflictSuffix),
        ("L R --conflict-suffix a,", OptName::ConflictSuffix),
        ("L R --conflict-suffix a/b", OptName::ConflictSuffix),
        ("L R --conflict-suffix a\0", OptName::ConflictSuffix),
        ("L R --max-delete 101", OptName::MaxDelete),
        ("L R --max-delete 1000", OptName::MaxDelete),
        ("L R --max-delete=-5", OptName::MaxDelete),
        ("L R --max-delete +5", OptName::MaxDelete),
        ("L R --max-delete=", OptName::MaxDelete),
        ("L R --max-delete ", OptName::MaxDelete),
        ("L R --check-filename a/b", OptName::CheckFilename),
        ("L R --check-filename ..", OptName::CheckFilename),
        (
            "L R --check-filename .bisync-partial",
            OptName::CheckFilename,
        ),
        ("L R --check-sync yes", OptName::CheckSync),
        ("L R --filters-file ", OptName::FiltersFile),
        ("L R --workdir=", OptName::Workdir),
        ("L R --backup-dir2  --backup-dir1 ", OptName::BackupDir1),
        ("L R --backup-dir2 ", OptName::BackupDir2),
        ("L R --max-lock 1m", OptName::MaxLock),
        ("L R --max-lock 1m59s", OptName::MaxLock),
        ("L R --max-lock 30m1h", OptName::MaxLock),
        ("L R --max-lock 1h1h", OptName::MaxLock),
        ("L R --max-lock m", OptName::MaxLock),
        ("L R --max-lock 120", OptName::MaxLock),
        ("L R --max-lock 0000120s", OptName::MaxLock),
        ("L R --max-lock ", OptName::MaxLock),
    ];
    for (line, name) in cases {
        assert_eq!(rt; refusal(rt.alloc(), line), value(name), "{line}");
    }
    Ok(())
}

fn percent_of(alloc: Global, line: &str) -> Result<u8, OptFault> {
    let opts = read(alloc, line)?;
    Ok(opts.guard.max_delete)
}

fn lock_of(alloc: Global, line: &str) -> Result<Option<i64>, OptFault> {
    let opts = read(alloc, line)?;
    Ok(opts.max_lock)
}

fn window_of(alloc: Global, line: &str) -> Result<Window, OptFault> {
    let opts = read(alloc, line)?;
    Ok(opts.compare.window)
}

fn resync_of(alloc: Global, line: &str) -> Result<Option<Prefer>, OptFault> {
    let opts = read(alloc, line)?;
    Ok(opts.resync)
}

#[test]
fn numbers_and_locks_are_taken_at_their_edges(rt: HostRuntime) -> Result<(), Fail> {
    for (line, want) in [
        ("L R --max-delete 0", 0),
        ("L R --max-delete 000", 0),
        ("L R --max-delete 100", 100),
    ] {
        assert_eq!(rt; percent_of(rt.alloc(), line)?, want, "{line}");
    }
    for (line, want) in [
        ("L R --max-lock 0", None),
        ("L R --max-lock 0s", None),
        ("L R --max-lock 0h0m0s", None),
        ("L R --max-lock 2m", Some(120_000_000_000)),
        ("L R --max-lock 000120s", Some(120_000_000_000)),
        ("L R --max-lock 1m60s", Some(120_000_000_000)),
        (
            "L R --max-lock 999999h999999m999999s",
            Some(3660996339_000_000_000),
        ),
    ] {
        assert_eq!(rt; lock_of(rt.alloc(), line)?, want, "{line}");
    }
    Ok(())
}

#[test]
fn windows_and_modes_are_taken(rt: HostRuntime) -> Result<(), Fail> {
    for (line, want) in [
        ("L R --time-window 1ns", Window::Ns1),
        ("L R --time-window 100ns", Window::Ns100),
        ("L R --time-window 1us", Window::Us1),
        ("L R --time-window 1ms", Window::Ms1),
        ("L R --time-window 1s", Window::S1),
        ("L R --time-window 2s", Window::S2),
    ] {
        assert_eq!(rt; window_of(rt.alloc(), line)?, want, "{line}");
    }
    for (line, want) in [
        ("L R --resync-mode none", None),
        ("L R --resync --resync-mode none", Some(Prefer::Path1)),
        ("L R --resync-mode path2", Some(Prefer::Path2)),
        ("L R --resync --resync-mode larger", Some(Prefer::Larger)),
    ] {
        assert_eq!(rt; resync_of(rt.alloc(), line)?, want, "{line}");
    }
    Ok(())
}

#[test]
fn options_that_do_not_go_together_are_refused(rt: HostRuntime) -> Result<(), Fail> {
    for (line, want) in [
        ("L R --resync --check-sync only", TOGETHER),
        ("L R --resync-mode path2 --check-sync only", TOGETHER),
        ("L R --create-empty-src-dirs --remove-empty-dirs", TOGETHER),
        ("L R --track-renames", TOGETHER),
        (
            "L R --compare size,modtime,checksum --track-renames --backup-dir1 B",
            TOGETHER,
        ),
        (
            "L R --compare checksum --track-renames --backup-dir2 B",
            TOGETHER,
        ),
        ("L R --compare size,modtime,checksum --track-renames", None),
        ("L R --resync-mode none --check-sync only", None),
        (
            "L R --remove-empty-dirs --backup-dir1 A --backup-dir2 B",
            None,
        ),
        (
            "L R --conflict-suffix aaaaaaaaaaaaaaaaaaaaaaaaaaaaaaaaaaaaaaaaaaaaaaaaaaaaaaaaaaaaaaaa",
            None,
        ),
        ("L R --check-filename X", None),
    ] {
        assert_eq!(rt; refusal(rt.alloc(), line), want, "{line}");
    }
    Ok(())
}

fn checks(alloc: Global, line: &str, want: Compare) -> Result<bool, OptFault> {
    let opts = check(alloc, line)?;
    Ok(is(&opts.root1, "L") && is(&opts.root2, "R") && opts.compare == want)
}

#[test]
fn the_words_of_check_are_read(rt: HostRuntime) -> Result<(), Fail> {
    assert!(rt; checks(rt.alloc(), "L R", compare(true, false, true, Window::Ns1))?);
    let line = "L R --compare modtime --time-window 2s";
    assert!(rt; checks(rt.alloc(), line, compare(false, true, false, Window::S2))?);
    for (line, want) in [
        ("L", WORDS),
        ("L R --force", WORDS),
        (" R", value(OptName::Path1)),
        ("L  --compare x", value(OptName::Path2)),
        ("L R --compare x --time-window x", value(OptName::Compare)),
        ("L R --time-window x", value(OptName::TimeWindow)),
    ] {
        assert_eq!(rt; check(rt.alloc(), line).err(), want, "{line}");
    }
    Ok(())
}
