use crate::{FaultKind, Pattern, PatternFault, Room, Subject};
use bisync_text::Path;
use std::alloc::Global;

fn answer(alloc: Global, pattern: &str, path: &str) -> Option<bool> {
    let pattern = Pattern::read(alloc, pattern.as_bytes()).ok()?;
    let path = Path::read(alloc, path.as_bytes()).ok()?;
    Some(pattern.matches(&path))
}

#[test]
fn patterns_match_paths(rt: HostRuntime) {
    for (pattern, path, wanted) in [
        ("*.jpg", "a/b.jpg", true),
        ("/*.jpg", "a/b.jpg", false),
        ("/*.jpg", "b.jpg", true),
        ("dir/", "x/dir/f", true),
        ("dir/", "dir", false),
        ("dir/", "adir/f", false),
        ("a?c", "abc", true),
        ("a?c", "a/c", false),
        ("/a/**", "a/b/c", true),
        ("/a/*", "a/b/c", false),
        ("{a,b}.c", "b.c", true),
        ("{a,}x", "x", true),
        ("[!a]x", "bx", true),
        ("[!a]x", "ax", false),
        ("[a-c]x", "bx", true),
        ("[a-c]x", "dx", false),
        ("\\*", "*", true),
        ("\\*", "a", false),
    ] {
        let found = answer(rt.alloc(), pattern, path);
        assert!(rt; found == Some(wanted), "{pattern} on {path}");
    }
}

#[test]
fn patterns_keep_their_corners(rt: HostRuntime) {
    for (pattern, path, wanted) in [
        ("a,b]", "a,b]", true),
        ("{a\\,b,c*}d", "a,bd", true),
        ("{a\\,b,c*}d", "ccd", true),
        ("{}a", "a", true),
        ("{[,}]x,y}z", "}xz", true),
        ("dir\\/", "x/dir/f", false),
        ("x\\\\/", "x\\/f", true),
        ("//", "a", false),
        ("[^!]", "a", true),
        ("[^!]", "!", false),
        ("[a!]", "!", true),
        ("[:a]", ":", true),
        ("[[\\:]", ":", true),
        ("[\\]]", "]", true),
        ("x[a/]b", "xab", true),
        ("x[/]b", "x/b", false),
        ("x[!a]b", "x/b", false),
        ("a?c", "a\u{e9}c", true),
        ("[\u{e0}-\u{fc}]", "\u{e9}", true),
        ("[\u{e0}-\u{fc}]", "e", false),
        ("[!\u{1f600}]", "\u{1f600}", false),
        ("??", "\u{1f600}", false),
        ("*", "a/b", true),
        ("/*", "a/b", false),
        ("/**", "a/b", true),
        ("b/c", "ab/c", false),
    ] {
        let found = answer(rt.alloc(), pattern, path);
        assert!(rt; found == Some(wanted), "{pattern} on {path}");
    }
}

#[test]
fn faults_have_their_places(rt: HostRuntime) {
    for (pattern, place, kind) in [
        ("a***", 1, FaultKind::Stars),
        ("[]", 0, FaultKind::Class),
        ("x}", 1, FaultKind::Brace),
        ("{a{b}}", 2, FaultKind::Brace),
        ("a\\", 1, FaultKind::Backslash),
        ("/", 0, FaultKind::Empty),
        ("a\\d", 1, FaultKind::Backslash),
        ("[[:alnum:]]", 0, FaultKind::Class),
        ("{{f[0-9]+}}", 1, FaultKind::Brace),
        ("*.{{jpe?g}}", 3, FaultKind::Brace),
        ("", 0, FaultKind::Empty),
        ("{a{b}", 2, FaultKind::Brace),
        ("{[a}", 1, FaultKind::Class),
        ("{[a", 0, FaultKind::Brace),
        ("{a\\", 0, FaultKind::Brace),
        ("{\\}", 0, FaultKind::Brace),
        ("{\\d}", 1, FaultKind::Backslash),
        ("/\u{e9}***", 3, FaultKind::Stars),
        ("\u{1f600}}", 4, FaultKind::Brace),
        ("[a-]", 0, FaultKind::Class),
        ("[c-a]", 0, FaultKind::Class),
        ("[!]", 0, FaultKind::Class),
        ("[a\\d]", 0, FaultKind::Class),
        ("[a-[:]", 0, FaultKind::Class),
        ("***/", 0, FaultKind::Stars),
    ] {
        let fault = Pattern::read(rt.alloc(), pattern.as_bytes()).err();
        assert!(rt; fault == Some(PatternFault::At(place, kind)), "{pattern}");
    }
    let fault = Pattern::read(rt.alloc(), b"a\xff").err();
    assert!(rt; fault == Some(PatternFault::At(0, FaultKind::NotUtf8)));
}

#[test]
fn a_pattern_has_a_longest_text(rt: HostRuntime) {
    let letters = [b'a'; 1025];
    assert!(rt; Pattern::read(rt.alloc(), &letters[1..]).is_ok());
    let fault = Pattern::read(rt.alloc(), &letters).err();
    assert!(rt; fault == Some(PatternFault::At(1024, FaultKind::Long)));
}

#[test]
fn many_stars_end_at_once(rt: HostRuntime) {
    let Ok(path) = Path::read(rt.alloc(), &[b'a'; 4096]) else {
        assert!(rt; false, "the path is read");
        return;
    };
    for text in [
        "*a*a*a*a*a*a*a*a*a*b",
        "*a*a*a*a*a*a*a*a*a*a*a*a*a*a*a*a*a*a*a*ab",
    ] {
        let Ok(pattern) = Pattern::read(rt.alloc(), text.as_bytes()) else {
            assert!(rt; false, "{text} is read");
            return;
        };
        assert!(rt; !pattern.matches(&path), "{text}");
    }
}

#[test]
fn one_subject_serves_all_paths(rt: HostRuntime) {
    let mut subject = Subject::new();
    let mut room = Room::new();
    let Ok(pattern) = Pattern::read(rt.alloc(), b"{long*,b}/*.c") else {
        assert!(rt; false, "the pattern is read");
        return;
    };
    for (path, wanted) in [
        ("a/longer/name.c", true),
        ("b/c", false),
        ("b/.c", true),
        ("a", false),
    ] {
        let Ok(path) = Path::read(rt.alloc(), path.as_bytes()) else {
            assert!(rt; false, "the path is read");
            return;
        };
        subject.set(&path);
        assert!(rt; pattern.matches_in(&subject, &mut room) == wanted);
    }
}
