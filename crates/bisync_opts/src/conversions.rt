//! What the texts of the options mean.

ghost use Rattle.std.specs.Prelude.{◌≡◌, ◌≢◌, ◌==◌, ◌≤◌, false, option_map, IfOk, IfSome, IsTrue, codes};
ghost use Rattle.std.specs.List.{list_all, list_any, slice_split};
ghost use Rattle.std.specs.Str.{bytes_eq};
ghost use Rattle.bisync_tree.specs.Ranges.{ComparesSome, IsLongEnough, is_suffix};
ghost use Rattle.bisync_opts.specs.Texts.{is_path};
ghost use Rattle.bisync_opts.specs.Conversions.{filled, is_field, has_field, fields, suffix_pair, suffixes, percent, one_name, lock_for, max_lock};

use crate::durations::duration;
use crate::texts::{cut_at, is_suffix, number};
use bisync_text::{OutOfMemory, Path, PathFault, Text};
use bisync_tree::{Compare, Window};
use std::alloc::Global;

const LEAST_LOCK: u64 = 120_000_000_000;

/// A text that isn't empty.
pub fn filled(text: &str) -> Option<&str>
    ensures { option_map (λ t. t.now) result ≡ filled text.now }
{
    if text.is_empty() { None } else { Some(text) }
}

/// The compared fields: `size`, `modtime` and `checksum`, with commas between them. One that is
/// named twice counts once.
pub fn fields(text: &str) -> Option<Compare>
    ensures value { result ≡ fields text.now }
    ensures some { IfSome result ComparesSome }
{
    let text = text.as_bytes();
    if !has_fields_alone(text) {
        return None;
    }
    Some(Compare {
        size: has_field(b"size", text),
        time: has_field(b"modtime", text),
        hash: has_field(b"checksum", text),
        window: Window::Ns1,
    })
}

fn has_fields_alone(text: &[u8]) -> bool
    ensures { result ≡ list_all is_field (slice_split (λ b. b == 44) text.now) }
{
    text.split(|b| *b == b',').all(|name| is_field(name))
}

fn is_field(name: &[u8]) -> bool
    ensures { result ≡ is_field name.now }
{
    name == b"size".as_slice() || name == b"modtime".as_slice() || name == b"checksum".as_slice()
}

fn has_field(field: &[u8], text: &[u8]) -> bool
    ensures { result ≡ has_field field.now (slice_split (λ b. b == 44) text.now) }
{
    text.split(|b| *b == b',').any(|name| name == field)
}

/// One suffix for both sides, or Path1's and Path2's with a comma between them.
pub fn suffixes(text: &str) -> Option<(&str, &str)>
    ensures value { option_map (λ pair. (pair.0.now, pair.1.now)) result ≡ suffixes text.now }
    ensures form { IfSome result (λ pair. IsTrue (is_suffix pair.0.now) × IsTrue (is_suffix pair.1.now)) }
{
    match cut_at(text, ',') {
        Some((one, two)) => suffix_pair(one, two),
        None => suffix_pair(text, text),
    }
}

fn suffix_pair<'a>(one: &'a str, two: &'a str) -> Option<(&'a str, &'a str)>
    ensures value { option_map (λ pair. (pair.0.now, pair.1.now)) result ≡ suffix_pair one.now two.now }
    ensures form { IfSome result (λ pair. IsTrue (is_suffix pair.0.now) × IsTrue (is_suffix pair.1.now)) }
{
    if is_suffix(one) && is_suffix(two) {
        Some((one, two))
    } else {
        None
    }
}

/// One to three digits, at most 100.
pub fn percent(text: &str) -> Option<u8>
    ensures value { result ≡ percent text.now }
    ensures bound { IfSome result (λ n. n ≤ 100) }
{
    let n = number(text, 3)?;
    if n <= 100 { Some(n as u8) } else { None }
}

/// How long a lock holds, in nanoseconds: a duration of at least two minutes, or one of 0, which is
/// for ever.
pub fn max_lock(text: &str) -> Option<Option<i64>>
    ensures value { result ≡ max_lock text.now }
    ensures least { IfSome result IsLongEnough }
{
    let n = duration(text)?;
    if n == 0 {
        Some(None)
    } else if n < LEAST_LOCK {
        None
    } else {
        Some(Some(n as i64))
    }
}

/// A path of one name.
pub fn one_name(alloc: Global, text: &str) -> Result<Option<Text>, OutOfMemory>
    ensures { IfOk result (λ name. name ≡ one_name text.now) }
{
    let text = text.as_bytes();
    if !is_path(alloc, text)? || text.contains(&b'/') {
        return Ok(None);
    }
    Ok(Some(Text::from_bytes(alloc, text)?))
}

fn is_path(alloc: Global, text: &[u8]) -> Result<bool, OutOfMemory>
    ensures { IfOk result (λ is. is ≡ is_path text.now) }
{
    match Path::read(alloc, text) {
        Ok(_) => Ok(true),
        Err(fault) => is_no_path(fault),
    }
}

fn is_no_path(fault: PathFault) -> Result<bool, OutOfMemory>
    ensures { IfOk result (λ is. (is ≡ false) × (fault ≢ PathFault.OutOfMemory)) }
{
    match fault {
        PathFault::OutOfMemory => Err(OutOfMemory),
        _ => Ok(false),
    }
}
