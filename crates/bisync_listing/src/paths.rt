//! A quoted path.

ghost use Rattle.std.specs.Prelude.{◌≡◌, ℕ, List, not, IfOk, IfSome, MatchOption};
ghost use Rattle.std.specs.List.{list_all};
ghost use Rattle.bisync_text.specs.Path.{IsPath};
ghost use Rattle.bisync_text.specs.Quote.{is_escaped, quoted};

use crate::words::after;
use bisync_text::{OutOfMemory, Path, PathFault, QuoteFault, QuotedByte, Text, unquote};
use std::alloc::Global;

#[tactic(auto, unfolding(bisync_text::specs::Quote::quoted_byte))]
fn stands_for_itself(byte: u8) -> bool
    ensures { result ≡ not (is_escaped byte) }
{
    QuotedByte::new(byte).as_bytes().len() == 1
}

fn stand_for_themselves(bytes: &[u8]) -> bool
    ensures { result ≡ list_all (λ b. not (is_escaped b)) bytes.now }
{
    bytes.iter().all(|b| stands_for_itself(*b))
}

// The bytes that the text quotes, where each of them stands for itself.
fn between_quotes(text: &[u8]) -> Option<&[u8]>
    ensures { IfSome result (λ bytes. text.now ≡ quoted bytes.now) }
{
    let rest = after(b"\"", text)?;
    let (last, bytes) = rest.split_last()?;
    if *last != b'"' || !stand_for_themselves(bytes) {
        return None;
    }
    Some(bytes)
}

fn read_bytes(alloc: Global, text: &[u8]) -> Result<Option<Text>, OutOfMemory>
    ensures { IfOk result (λ found. MatchOption found
        ((bytes : List ℕ) → text.now ≡ quoted bytes → ⊥)
        (λ bytes. text.now ≡ quoted bytes)) }
{
    match unquote(alloc, text) {
        Ok(bytes) => Ok(Some(bytes)),
        Err(QuoteFault::Bad(_)) => Ok(None),
        Err(QuoteFault::OutOfMemory) => Err(OutOfMemory),
    }
}

fn path_of(alloc: Global, bytes: &[u8]) -> Result<Option<Path>, OutOfMemory>
    ensures { IfOk result (λ found. MatchOption found (IsPath bytes.now → ⊥) (λ path. (path ≡ bytes.now) × IsPath bytes.now)) }
{
    match Path::read(alloc, bytes) {
        Ok(path) => Ok(Some(path)),
        Err(PathFault::OutOfMemory) => Err(OutOfMemory),
        Err(_) => Ok(None),
    }
}

/// The path that the text quotes.
pub(crate) fn read_path(alloc: Global, text: &[u8]) -> Result<Option<Path>, OutOfMemory>
    ensures { IfOk result (λ found. MatchOption found
        ((path : List ℕ) → IsPath path → text.now ≡ quoted path → ⊥)
        (λ path. IsPath path × (text.now ≡ quoted path))) }
{
    // Most texts have no escape. Their bytes aren't copied before they are read as a path.
    if let Some(bytes) = between_quotes(text) {
        return path_of(alloc, bytes);
    }
    match read_bytes(alloc, text)? {
        Some(bytes) => path_of(alloc, bytes.as_bytes()),
        None => Ok(None),
    }
}
