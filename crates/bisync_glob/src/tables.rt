// Tables over the places of a text: whether the rest of a pattern matches what is left of the text from there.
// A function that puts a part before the rest is told a place `low` below which no entry is set, and gives
// such a place of the new table, or None where no entry is set there. So only what can change is swept.
ghost use Rattle.std.specs.Prelude.{◌≡◌, ◌+◌, ◌<◌, ◌==◌, ◌||◌, ◌↔◌, ℕ, Bool, true, false, not, IsTrue, List, MatchOption, length, get_or};
ghost use Rattle.bisync_glob.specs.Matching.{class_takes};
ghost use Rattle.bisync_glob.specs.Deciding.{IsTable, IsBlank, one_then, run_then, simple_then, alternative_then, any_then, part_then, is_nil, parts_match};

use crate::choices::Alternative;
use crate::classes::CharClass;
use crate::parts::{Part, Simple};

/// The table of a sequence of parts, from the last part to the first, and whether an entry may be set.
pub fn put_parts(
    parts: &[Part],
    text: &[char],
    table: &mut [bool],
    work: &mut [bool],
    union: &mut [bool],
) -> bool
    requires table { length table.old ≡ length text.now + 1 }
    requires work { length work.old ≡ length text.now + 1 }
    requires union { length union.old ≡ length text.now + 1 }
    ensures table { IsTable (parts_match parts.now) text.now table.new }
    ensures none { result ≡ false → IsBlank table.new (length text.now + 1) }
{
    put_end(text, table);
    let mut low = text.len();
    for k in (0..parts.len()).rev() {
        // Where no entry is set, none is with more parts before the rest.
        match put_part(&parts[k], low, text, table, work, union) {
            Some(next) => low = next,
            None => return false,
        }
    }
    true
}

/// The table of an empty sequence of parts: the end of the text alone.
fn put_end(text: &[char], table: &mut [bool])
    requires { length table.old ≡ length text.now + 1 }
    ensures table { IsTable is_nil text.now table.new }
    ensures low { IsBlank table.new (length text.now) }
{
    clear(table);
    table[text.len()] = true;
}

/// Puts a part before the rest.
fn put_part(
    part: &Part,
    low: usize,
    text: &[char],
    table: &mut [bool],
    work: &mut [bool],
    union: &mut [bool],
) -> Option<usize>
    requires table { length table.old ≡ length text.now + 1 }
    requires work { length work.old ≡ length text.now + 1 }
    requires union { length union.old ≡ length text.now + 1 }
    requires low { IsBlank table.old low }
    ensures table { (q : List ℕ → Bool) → IsTable q text.now table.old → IsTable (part_then part.now q) text.now table.new }
    ensures low { MatchOption result (IsBlank table.new (length text.now + 1)) (IsBlank table.new) }
{
    match part {
        Part::Plain(simple) => put_simple(simple, low, text, table),
        Part::Choice(choice) => {
            put_choice(choice.alternatives(), low, text, table, work, union);
            first_set(table)
        }
    }
}

/// Puts alternatives before the rest.
fn put_choice(
    alternatives: &[Alternative],
    low: usize,
    text: &[char],
    table: &mut [bool],
    work: &mut [bool],
    union: &mut [bool],
)
    requires table { length table.old ≡ length text.now + 1 }
    requires work { length work.old ≡ length text.now + 1 }
    requires union { length union.old ≡ length text.now + 1 }
    requires low { IsBlank table.old low }
    ensures { (q : List ℕ → Bool) → IsTable q text.now table.old → IsTable (any_then alternatives.now q) text.now table.new }
{
    clear(union);
    for alternative in alternatives {
        work.copy_from_slice(table);
        put_alternative(alternative.parts(), low, text, work);
        unite(union, work);
    }
    table.copy_from_slice(union);
}

/// Puts a sequence of parts before the rest.
fn put_alternative(parts: &[Simple], low: usize, text: &[char], table: &mut [bool])
    requires size { length table.old ≡ length text.now + 1 }
    requires low { IsBlank table.old low }
    ensures { (q : List ℕ → Bool) → IsTable q text.now table.old → IsTable (alternative_then parts.now q) text.now table.new }
{
    let mut low = low;
    for k in (0..parts.len()).rev() {
        low = put_simple(&parts[k], low, text, table).unwrap_or(text.len());
    }
}

/// Puts a part without braces before the rest.
fn put_simple(part: &Simple, low: usize, text: &[char], table: &mut [bool]) -> Option<usize>
    requires size { length table.old ≡ length text.now + 1 }
    requires low { IsBlank table.old low }
    ensures table { (q : List ℕ → Bool) → IsTable q text.now table.old → IsTable (simple_then part.now q) text.now table.new }
    ensures low { MatchOption result (IsBlank table.new (length text.now + 1)) (IsBlank table.new) }
{
    match part {
        Simple::Literal(literal) => put_literal(*literal, low, text, table),
        Simple::AnyChar => put_any_char(low, text, table),
        Simple::Class(class) => put_class(class, low, text, table),
        Simple::Star => {
            put_star(text, table);
            Some(0)
        }
        Simple::Stars => {
            put_stars(text, table);
            Some(0)
        }
    }
}

/// Puts a character that stands for itself before the rest.
fn put_literal(literal: char, low: usize, text: &[char], table: &mut [bool]) -> Option<usize>
    requires size { length table.old ≡ length text.now + 1 }
    requires low { IsBlank table.old low }
    ensures table { (q : List ℕ → Bool) → IsTable q text.now table.old → IsTable (one_then (λ c. c == literal) q) text.now table.new }
    ensures low { MatchOption result (IsBlank table.new (length text.now + 1)) (IsBlank table.new) }
{
    let from = low.saturating_sub(1);
    let mut any = false;
    for i in from..text.len() {
        let is_set = table[i + 1] & (text[i] == literal);
        table[i] = is_set;
        any |= is_set;
    }
    table[text.len()] = false;
    if any { Some(from) } else { None }
}

/// Puts a `?` before the rest.
fn put_any_char(low: usize, text: &[char], table: &mut [bool]) -> Option<usize>
    requires size { length table.old ≡ length text.now + 1 }
    requires low { IsBlank table.old low }
    ensures table { (q : List ℕ → Bool) → IsTable q text.now table.old → IsTable (one_then (λ c. not (c == 47)) q) text.now table.new }
    ensures low { MatchOption result (IsBlank table.new (length text.now + 1)) (IsBlank table.new) }
{
    let from = low.saturating_sub(1);
    let mut any = false;
    for i in from..text.len() {
        let is_set = table[i + 1] & (text[i] != '/');
        table[i] = is_set;
        any |= is_set;
    }
    table[text.len()] = false;
    if any { Some(from) } else { None }
}

/// Puts a class before the rest.
fn put_class(class: &CharClass, low: usize, text: &[char], table: &mut [bool]) -> Option<usize>
    requires size { length table.old ≡ length text.now + 1 }
    requires low { IsBlank table.old low }
    ensures table { (q : List ℕ → Bool) → IsTable q text.now table.old → IsTable (one_then (class_takes class.now) q) text.now table.new }
    ensures low { MatchOption result (IsBlank table.new (length text.now + 1)) (IsBlank table.new) }
{
    let from = low.saturating_sub(1);
    let mut any = false;
    for i in from..text.len() {
        let is_set = table[i + 1] && class.takes(text[i]);
        table[i] = is_set;
        any |= is_set;
    }
    table[text.len()] = false;
    if any { Some(from) } else { None }
}

/// Puts a `*` before the rest.
fn put_star(text: &[char], table: &mut [bool])
    requires { length table.old ≡ length text.now + 1 }
    ensures { (q : List ℕ → Bool) → IsTable q text.now table.old → IsTable (run_then (λ c. not (c == 47)) q) text.now table.new }
{
    for i in (0..text.len()).rev() {
        let extends = table[i + 1] & (text[i] != '/');
        table[i] |= extends;
    }
}

/// Puts a `**` before the rest.
fn put_stars(text: &[char], table: &mut [bool])
    requires { length table.old ≡ length text.now + 1 }
    ensures { (q : List ℕ → Bool) → IsTable q text.now table.old → IsTable (run_then (λ c. true) q) text.now table.new }
{
    for i in (0..text.len()).rev() {
        let extends = table[i + 1];
        table[i] |= extends;
    }
}

/// The place of the first entry that is set.
fn first_set(table: &[bool]) -> Option<usize>
    ensures { MatchOption result (IsBlank table.now (length table.now)) (IsBlank table.now) }
{
    for (k, is_set) in table.iter().enumerate() {
        if *is_set {
            return Some(k);
        }
    }
    None
}

/// Sets each entry of `union` that `other` has set.
fn unite(union: &mut [bool], other: &[bool])
    requires { length union.old ≡ length other.now }
    ensures { (k : ℕ) → k < length other.now → get_or union.new k false ≡ (get_or union.old k false || get_or other.now k false) }
{
    for (k, is_set) in other.iter().enumerate() {
        union[k] |= *is_set;
    }
}

fn clear(table: &mut [bool])
    ensures { (k : ℕ) → get_or table.new k false ≡ false }
{
    table.fill(false);
}

/// Whether the rest of a pattern matches what follows some `/`.
pub fn has_after_slash(text: &[char], table: &[bool]) -> bool
    requires { length table.now ≡ length text.now + 1 }
    ensures { IsTrue result ↔ ((k : ℕ) × (k < length text.now) × (get_or text.now k 0 ≡ 47) × IsTrue (get_or table.now (k + 1) false)) }
{
    for (k, c) in text.iter().enumerate() {
        if *c == '/' && table[k + 1] {
            return true;
        }
    }
    false
}
