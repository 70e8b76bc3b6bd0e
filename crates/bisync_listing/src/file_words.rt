//! What stands in a file line before its path.

ghost use Rattle.std.specs.Prelude.{◌≡◌, ℕ, ℤ, ◌/◌, ◌%◌, ◌<◌, ◌^◌, List, ◌∷◌, ◌++◌, length, Option, IfSome, IfNone, codes, decimal, FitsSigned};
ghost use Rattle.std.specs.Int.{w64};
ghost use Rattle.bisync_text.specs.Quote.{hex_digit};
ghost use Rattle.bisync_text.specs.Time.{time_spelling};
ghost use Rattle.bisync_listing.specs.Spelling.{digest_text, hex_digits};
ghost use Rattle.bisync_listing.specs.ListingText.{IsDigest};

use crate::words::{after, word};
use bisync_text::{read_decimal, read_time};

fn nibble(digit: u8) -> Option<u8>
    ensures found { IfSome result (λ n. (n < 16) × (digit ≡ hex_digit n)) }
    ensures none { IfNone result ((n : ℕ) → n < 16 → digit ≡ hex_digit n → ⊥) }
{
    match digit {
        b'0'..=b'9' => Some(digit - b'0'),
        b'a'..=b'f' => Some(digit - b'a' + 10),
        _ => None,
    }
}

// The byte that two digits show.
fn byte_of(high: u8, low: u8) -> Option<u8>
    ensures found { IfSome result (λ byte. (byte < 256) × (high ≡ hex_digit (byte / 16)) × (low ≡ hex_digit (byte % 16))) }
    ensures none { IfNone result ((byte : ℕ) → byte < 256 → high ≡ hex_digit (byte / 16) → low ≡ hex_digit (byte % 16) → ⊥) }
{
    Some(16 * nibble(high)? + nibble(low)?)
}

// The 16 bytes of 32 digits.
fn read_hex(text: &[u8]) -> Option<[u8; 16]>
    ensures found { IfSome result (λ bytes. IsDigest bytes × (text.now ≡ hex_digits bytes)) }
    ensures none { IfNone result ((bytes : List ℕ) → IsDigest bytes → text.now ≡ hex_digits bytes → ⊥) }
{
    if text.len() != 32 {
        return None;
    }
    let mut bytes = [0u8; 16];
    for i in 0..16usize {
        bytes[i] = byte_of(text[2 * i], text[2 * i + 1])?;
    }
    Some(bytes)
}

// `-`, or `md5:` and the digits.
fn read_digest(text: &[u8]) -> Option<Option<[u8; 16]>>
    ensures found { IfSome result (λ hash. IfSome hash IsDigest × (text.now ≡ digest_text hash)) }
    ensures none { IfNone result ((hash : Option (List ℕ)) → IfSome hash IsDigest → text.now ≡ digest_text hash → ⊥) }
{
    if text == b"-".as_slice() {
        return Some(None);
    }
    let digits = after(b"md5:", text)?;
    Some(Some(read_hex(digits)?))
}

// The size, and what follows its space.
fn size_of(line: &[u8]) -> Option<(u64, &[u8])>
    ensures found { IfSome result (λ x. (x.0 < 2 ^ 64) × (line.now ≡ codes "- " ++ (decimal x.0 ++ 32 ∷ x.1.now))) }
    ensures none { IfNone result ((size : ℕ) (rest : List ℕ) → size < 2 ^ 64 → line.now ≡ codes "- " ++ (decimal size ++ 32 ∷ rest) → ⊥) }
{
    let text = after(b"- ", line)?;
    let (digits, rest) = word(text)?;
    Some((read_decimal(digits)?, rest))
}

// The digest, and what follows its dash.
fn digest_of(text: &[u8]) -> Option<(Option<[u8; 16]>, &[u8])>
    ensures found { IfSome result (λ x. IfSome x.0 IsDigest × (text.now ≡ digest_text x.0 ++ (codes " - " ++ x.1.now))) }
    ensures none { IfNone result ((hash : Option (List ℕ)) (rest : List ℕ) → IfSome hash IsDigest → text.now ≡ digest_text hash ++ (codes " - " ++ rest) → ⊥) }
{
    let (digest, more) = word(text)?;
    let rest = after(b"- ", more)?;
    Some((read_digest(digest)?, rest))
}

// The time, and what follows its space.
fn time_of(text: &[u8]) -> Option<(i64, &[u8])>
    ensures found { IfSome result (λ x. FitsSigned w64 x.0 × (text.now ≡ time_spelling x.0 ++ 32 ∷ x.1.now)) }
    ensures none { IfNone result ((time : ℤ) (rest : List ℕ) → FitsSigned w64 time → text.now ≡ time_spelling time ++ 32 ∷ rest → ⊥) }
{
    let (time, rest) = word(text)?;
    Some((read_time(time)?, rest))
}

/// What a file line says, with its path still quoted.
#[derive(Clone, Copy)]
pub(crate) struct FileWords<'a> {
    pub size: u64,
    pub hash: Option<[u8; 16]>,
    pub time: i64,
    pub quoted: &'a [u8],
}

/// The size, the digest and the time of a file line, and its quoted path, which isn't read yet.
pub(crate) fn file_words(line: &[u8]) -> Option<FileWords<'_>>
    ensures found { IfSome result (λ x. (x.size < 2 ^ 64) × IfSome x.hash IsDigest × FitsSigned w64 x.time
        × (line.now ≡ codes "- " ++ (decimal x.size ++ (32 ∷ (digest_text x.hash ++ (codes " - " ++ (time_spelling x.time ++ (32 ∷ x.quoted.now)))))))) }
    ensures none { IfNone result ((size : ℕ) (hash : Option (List ℕ)) (time : ℤ) (quoted : List ℕ) → size < 2 ^ 64 → IfSome hash IsDigest → FitsSigned w64 time
        → line.now ≡ codes "- " ++ (decimal size ++ (32 ∷ (digest_text hash ++ (codes " - " ++ (time_spelling time ++ (32 ∷ quoted)))))) → ⊥) }
{
    let (size, rest) = size_of(line)?;
    let (hash, rest) = digest_of(rest)?;
    let (time, quoted) = time_of(rest)?;
    Some(FileWords {
        size,
        hash,
        time,
        quoted,
    })
}
