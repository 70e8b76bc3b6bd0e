ghost use Rattle.std.specs.Prelude.{◌≡◌, ◌+◌, ◌≤◌, List, ℕ, IfOk, MatchOption, length, take, drop};
ghost use Rattle.bisync_glob.specs.Spelling.{is_escapable, begins, NoClass};
ghost use Rattle.bisync_glob.specs.Reading.{CharRead, NoChar, ItemRead, NoItem, ItemsRead, ClassRead, has_mark, no_items};

use crate::classes::{CharClass, Item};
use bisync_text::OutOfMemory;
use std::alloc::Global;

/// The class at the front of a text, and how many characters spell it.
pub fn read_class(alloc: Global, text: &[char]) -> Result<Option<(CharClass, usize)>, OutOfMemory>
    ensures { IfOk result (λ found. MatchOption found (NoClass text.now) (λ r. ClassRead r.0 r.1 text.now)) }
{
    if !begins('[', text) {
        return Ok(None);
    }
    let negated = has_mark(&text[1..]);
    let start = if negated { 2 } else { 1 };
    let (items, len) = read_items(alloc, &text[start..])?;
    if no_items(&items) || !begins(']', &text[start + len..]) {
        return Ok(None);
    }
    Ok(Some((CharClass::new(negated, items), start + len + 1)))
}

/// The items at the front of a text, up to where no item begins, and how many characters spell them.
fn read_items(alloc: Global, text: &[char]) -> Result<(Vec<Item>, usize), OutOfMemory>
    ensures { IfOk result (λ r. ItemsRead r.0.items r.1 text.now) }
{
    let mut items = Vec::new(alloc);
    let mut len = 0;
    while let Some((item, item_len)) = read_item(&text[len..]) {
        items.push(item)?;
        len += item_len;
    }
    Ok((items, len))
}

/// The item at the front of a text, and how many characters spell it.
fn read_item(text: &[char]) -> Option<(Item, usize)>
    ensures { MatchOption result (NoItem text.now) (λ r. ItemRead r.0 r.1 text.now) }
{
    let Some((low, len)) = read_char(text) else {
        return None;
    };
    if !begins('-', &text[len..]) {
        return Some((Item::Single(low), len));
    }
    let Some((high, high_len)) = read_char(&text[len + 1..]) else {
        return None;
    };
    if high < low {
        return None;
    }
    Some((Item::Range(low, high), len + 1 + high_len))
}

/// The character of an item at the front of a text, and how many characters spell it.
fn read_char(text: &[char]) -> Option<(char, usize)>
    ensures { MatchOption result (NoChar text.now) (λ r. CharRead r.0 r.1 text.now) }
{
    match text {
        ['\\', c, ..] if is_escapable(*c) => Some((*c, 2)),
        [] | ['\\' | '-' | ']', ..] | ['[', ':', ..] => None,
        [c, ..] => Some((*c, 1)),
    }
}

/// Whether a text begins with the mark of a negated class.
fn has_mark(text: &[char]) -> bool
    ensures { result ≡ has_mark text.now }
{
    begins('!', text) || begins('^', text)
}

fn no_items(items: &[Item]) -> bool
    ensures { result ≡ no_items items.now }
{
    matches!(items, [])
}

/// Whether a `\` may stand before the character.
pub fn is_escapable(c: char) -> bool
    ensures { result ≡ is_escapable c }
{
    !c.is_ascii_alphanumeric()
}

/// Whether a text begins with the character.
pub fn begins(c: char, text: &[char]) -> bool
    ensures { result ≡ begins c text.now }
{
    match text {
        [first, ..] => *first == c,
        [] => false,
    }
}
