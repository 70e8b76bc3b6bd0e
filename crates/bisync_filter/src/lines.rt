//! What a line says.

ghost use Rattle.std.specs.Prelude.{◌≡◌, IfOk, MatchOption};
ghost use Rattle.bisync_filter.specs.Trimming.{stripped};
ghost use Rattle.bisync_filter.specs.Spelling.{IsNoRule, Says, SplitsAtMark, IsReadRule, is_skipped};

use crate::rule_lists::Rule;
use crate::trims::stripped;
use bisync_glob::{Pattern, PatternFault};
use bisync_text::OutOfMemory;
use std::alloc::Global;

/// What a line says.
#[derive(Drop)]
pub enum Line {
    /// Nothing.
    Skipped,
    /// That the rules before it are cleared.
    Clears,
    /// That a rule comes behind the others.
    Adds(Rule),
}

/// What a line of the file says. None where it is no rule.
pub fn read_line(alloc: Global, line: &[u8]) -> Result<Option<Line>, OutOfMemory>
    ensures { IfOk result (λ found. MatchOption found (IsNoRule (stripped line.now)) (λ said. Says said (stripped line.now))) }
{
    read_stripped(alloc, stripped(line))
}

fn read_stripped(alloc: Global, line: &[u8]) -> Result<Option<Line>, OutOfMemory>
    ensures { IfOk result (λ found. MatchOption found (IsNoRule line.now) (λ said. Says said line.now)) }
{
    if is_skipped(line) {
        return Ok(Some(Line::Skipped));
    }
    if line == b"!".as_slice() {
        return Ok(Some(Line::Clears));
    }
    match split_at_mark(line) {
        Some((includes, text)) => match read_rule(alloc, includes, text)? {
            Some(rule) => Ok(Some(Line::Adds(rule))),
            None => Ok(None),
        },
        None => Ok(None),
    }
}

fn is_skipped(line: &[u8]) -> bool
    ensures { result ≡ is_skipped line.now }
{
    match line {
        [] => true,
        [first, ..] => *first == b'#' || *first == b';',
    }
}

/// Whether the line includes, and what stands behind its mark and the space.
fn split_at_mark(line: &[u8]) -> Option<(bool, &[u8])>
    ensures { SplitsAtMark line.now result }
{
    match line {
        [b'+', b' ', text @ ..] => Some((true, text)),
        [b'-', b' ', text @ ..] => Some((false, text)),
        _ => None,
    }
}

/// The rule of a pattern. None where the text is no pattern.
fn read_rule(alloc: Global, includes: bool, text: &[u8]) -> Result<Option<Rule>, OutOfMemory>
    ensures { IfOk result (IsReadRule includes text.now) }
{
    match Pattern::read(alloc, text) {
        Ok(pattern) => Ok(Some(Rule { includes, pattern })),
        Err(PatternFault::At(_, _)) => Ok(None),
        Err(PatternFault::OutOfMemory) => Err(OutOfMemory),
    }
}
