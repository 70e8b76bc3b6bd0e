use crate::{RuleFault, Rules, digest_text, read_digest};
use bisync_glob::{Room, Subject};
use bisync_text::Path;
use md5::{Digest, Md5};
use std::alloc::{AllocError, Global};
use std::test::Fail;

fn answer(alloc: Global, text: &[u8], path: &[u8]) -> Option<bool> {
    let rules = Rules::read(alloc, text).ok()?;
    let path = Path::read(alloc, path).ok()?;
    Some(rules.passes(&path))
}

#[test]
fn the_first_matching_rule_decides(rt: HostRuntime) {
    let cases: [(&[u8], &[u8], bool); 17] = [
        (b"+ a\n!\n- b\n", b"a", true),
        (b"+ a\n!\n- b\n", b"b", false),
        (b"- *\n!", b"a", true),
        (b"+ *.c\n- *", b"a.c", true),
        (b"+ *.c\n- *", b"a.h", false),
        (b"- *\n+ *.c", b"a.c", false),
        (b"- a\r\n- b\r\n", b"a", false),
        (b"- a\r\n- b\r\n", b"c", true),
        (b"- a\r\r\n", b"a", true),
        (b"- a\r\r\n", b"a\r", false),
        (b" \t- a \t\r\n", b"a", false),
        (b"- a b", b"a b", false),
        (b"-  a", b" a", false),
        (b"# - a\n; - a\n\n \t\n", b"a", true),
        (b"", b"a", true),
        (b"- x/", b"x/y", false),
        (b"- \xc3\xa9", b"\xc3\xa9", false),
    ];
    for (text, path, wanted) in cases {
        assert!(rt; answer(rt.alloc(), text, path) == Some(wanted));
    }
}

#[test]
fn the_first_line_that_is_no_rule_is_told(rt: HostRuntime) {
    let cases: [(&[u8], u64); 11] = [
        (b"* a", 1),
        (b"+ a\n- {{b}}", 2),
        (b"+ \xff", 1),
        (b"+ a\nx b", 2),
        (b"+ ", 1),
        (b"+", 1),
        (b"+a", 1),
        (b"-\ta", 1),
        (b"! a", 1),
        (b"\n\n- /\n* a", 3),
        (b"- a\n\x0b", 2),
    ];
    for (text, line) in cases {
        assert!(rt; outcome(rt.alloc(), text) == Err(RuleFault::BadLine(line)));
    }
}

// A text of `#`, with one newline or none.
fn comments(alloc: Global, len: usize, newline: Option<usize>) -> Result<Vec<u8>, AllocError> {
    let mut text = Vec::new(alloc);
    for i in 0..len {
        let b = if newline == Some(i) { b'\n' } else { b'#' };
        text.push(b)?;
    }
    Ok(text)
}

fn outcome(alloc: Global, text: &[u8]) -> Result<(), RuleFault> {
    Rules::read(alloc, text)?;
    Ok(())
}

#[test]
fn the_line_past_the_limit_is_told(rt: HostRuntime) -> Result<(), Fail> {
    let cases = [
        (1_048_577, None, Err(RuleFault::BadLine(1))),
        (1_048_577, Some(1_048_576), Err(RuleFault::BadLine(1))),
        (1_048_577, Some(1_048_575), Err(RuleFault::BadLine(2))),
        (1_048_576, Some(1_048_575), Ok(())),
        (1_048_576, None, Ok(())),
    ];
    for (len, newline, wanted) in cases {
        let text = comments(rt.alloc(), len, newline)?;
        assert!(rt; outcome(rt.alloc(), &text) == wanted);
    }
    Ok(())
}

#[test]
fn every_path_passes_by_no_rules(rt: HostRuntime) -> Result<(), Fail> {
    let rules = Rules::all(rt.alloc());
    let mut subject = Subject::new();
    let mut room = Room::new();
    for text in [b"a".as_slice(), b"b/c".as_slice()] {
        let path = Path::read(rt.alloc(), text)?;
        subject.set(&path);
        assert!(rt; rules.passes(&path));
        assert!(rt; rules.passes_in(&subject, &mut room));
    }
    Ok(())
}

#[test]
fn digests_are_read_as_they_are_written(rt: HostRuntime) {
    let mut hasher = Md5::new();
    hasher.update(b"abc".as_slice());
    let digest = hasher.finalize();
    let text = digest_text(&digest);
    assert!(rt; &text == b"900150983cd24fb0d6963f7d28e17f72");
    assert!(rt; read_digest(&text) == Some(digest));
    assert!(rt; read_digest(b"900150983cd24fb0d6963f7d28e17f72\n") == Some(digest));
    let refused: [&[u8]; 7] = [
        b"900150983CD24FB0D6963F7D28E17F72",
        b"900150983cd24fb0d6963f7d28e17f72\n\n",
        b"900150983cd24fb0d6963f7d28e17f72\r\n",
        b"900150983cd24fb0d6963f7d28e17f7\n",
        b"900150983cd24fb0d6963f7d28e17f7g",
        b"900150983cd24fb0d6963f7d28e17f7222",
        b"",
    ];
    for text in refused {
        assert!(rt; read_digest(text).is_none());
    }
}
