ghost use Rattle.std.specs.Prelude.{◌≡◌, ◌≤◌, ◌↔◌, IfOk, IfErr, IsTrue, chars, length};
ghost use Rattle.bisync_glob.specs.Matching.{Matches};
ghost use Rattle.bisync_glob.specs.Refusals.{IsPatternText, IsFirstFault, IsOnlyPattern, IsOnlyFault, SpellsParts, unanchored};
ghost use Rattle.bisync_glob.specs.Building.{IsFaultBehind};

use crate::braces::first_fault;
use crate::builders::read_all_parts;
use crate::class_reader::begins;
use crate::decoding::decode;
use crate::parts::Part;
use crate::places::place_of;
use crate::tokens::read_tokens;
use crate::{FaultKind, PatternFault, Room, Subject};
use bisync_text::{OutOfMemory, Path};
use std::alloc::Global;
use std::marker::Model;

/// The most bytes of a pattern.
const MAX_LEN: usize = 1024;

/// A pattern of a filter rule, as it was read.
///
/// `*` stands for any characters without `/`, `**` for any characters, `?` for one character other
/// than `/`, `[a-c]` for one of them that is listed and `[!a-c]` or `[^a-c]` for one that is not,
/// `{a,b}` for one of the alternatives, and `\` before a character that is no ASCII letter or digit for
/// that character. A leading `/` anchors the pattern: any other may also match the whole of what
/// follows some `/`. A last `/` that no `\` escapes stands for `/**`. Characters are Unicode scalar
/// values. The grammar is this project's own.
#[derive(Drop)]
pub struct Pattern {
    anchored: bool,
    parts: Vec<Part>,
}

impl Model for Pattern {
    ghost use Rattle.bisync_glob.specs.Matching.{Glob};

    ghost Value = { Glob };

    ghost view = { λ pattern. record { anchored = pattern.anchored; parts = pattern.parts.items } };
}

impl Pattern {
    /// The pattern that the text is.
    ///
    /// # Errors
    ///
    /// `At` exactly where the text is no pattern: the first of the faults `Long`, `NotUtf8` and
    /// `Empty`, or else the leftmost of the others. `OutOfMemory` where memory was refused.
    pub fn read(alloc: Global, text: &[u8]) -> Result<Pattern, PatternFault>
        ensures pattern { IfOk result (λ pattern. IsPatternText pattern text.now) }
        ensures fault { IfErr result (λ fault. IsFirstFault fault text.now) }

        // `At` comes exactly where the text has a fault, and else the text is one pattern alone.
        ensures only_pattern { IfOk result (λ pattern. IsOnlyPattern pattern text.now) }
        ensures only_fault { IfErr result (λ fault. IsOnlyFault fault text.now) }
    {
        if text.len() > MAX_LEN {
            return Err(PatternFault::At(1024, FaultKind::Long));
        }
        match std::str::from_utf8(text) {
            Ok(text) => read_text(alloc, text),
            Err(_) => Err(PatternFault::At(0, FaultKind::NotUtf8)),
        }
    }

    /// Whether the pattern matches the path.
    pub fn matches(&self, path: &Path) -> bool
        ensures { IsTrue result ↔ Matches self.now (chars path.now) }
    {
        let mut subject = Subject::new();
        subject.set(path);
        self.matches_in(&subject, &mut Room::new())
    }

    /// Whether the pattern matches the path that the subject was set to.
    pub fn matches_in(&self, subject: &Subject, room: &mut Room) -> bool
        ensures { IsTrue result ↔ Matches self.now subject.now }
    {
        room.is_matched(self.anchored, &self.parts, subject.chars())
    }
}

fn read_text(alloc: Global, text: &str) -> Result<Pattern, PatternFault>
    requires { length text.now ≤ 1024 }
    ensures ok { IfOk result (λ pattern. IsPatternText pattern text.now) }
    ensures err { IfErr result (λ fault. IsFirstFault fault text.now) }
{
    let mut room = ['\0'; MAX_LEN];
    let len = decode(text, &mut room);
    let text = &room[..len];
    let anchored = begins('/', text);
    let rest = unanchored(text);
    if rest.is_empty() {
        return Err(PatternFault::At(0, FaultKind::Empty));
    }
    let skipped = if anchored { 1 } else { 0 };
    match read_rest(alloc, skipped, rest) {
        Ok(parts) => Ok(Pattern { anchored, parts }),
        Err(fault) => Err(fault),
    }
}

/// What is left after a leading `/` was taken off.
fn unanchored(text: &[char]) -> &[char]
    ensures { result.now ≡ unanchored text.now }
{
    if begins('/', text) { &text[1..] } else { text }
}

/// The parts of a text before which `skipped` bytes were taken off.
fn read_rest(alloc: Global, skipped: u64, text: &[char]) -> Result<Vec<Part>, PatternFault>
    requires skipped { skipped ≤ 1 }
    requires few { length text.now ≤ 1024 }
    ensures ok { IfOk result (λ parts. SpellsParts parts.items text.now) }
    ensures err { IfErr result (λ fault. IsFaultBehind skipped fault text.now) }
{
    let tokens = read_tokens(alloc, text)?;
    match first_fault(&tokens) {
        Some((k, kind)) => Err(PatternFault::At(skipped + place_of(&tokens, text, k), kind)),
        None => Ok(read_all_parts(alloc, tokens)?),
    }
}
