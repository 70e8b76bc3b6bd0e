//! The lines that begin with `#`: the first line, and the last one of version 2.

ghost use Rattle.std.specs.Prelude.{◌≡◌, ℕ, ◌<◌, ◌≤◌, ◌^◌, ◌++◌, ◌↔◌, List, IfSome, IfNone, IsTrue, codes, decimal};
ghost use Rattle.bisync_tree.specs.declared.entries.Compare.{Compare};
ghost use Rattle.bisync_listing.specs.Spelling.{field_names, fields_text, header_line, end_line};
ghost use Rattle.bisync_listing.specs.ListingText.{AreFields, IsHeader};
ghost use Rattle.bisync_listing.specs.declared.headers.Header.{Header};

use crate::Header;
use crate::words::{after, word};
use bisync_text::read_decimal;
use bisync_tree::{Compare, Window};

const MAX_STAMP: u64 = 999_999_999_999_999_999;

/// The names of the compared fields, joined by commas.
pub(crate) fn field_names(size: bool, time: bool, hash: bool) -> &'static [u8]
    ensures { result.now ≡ field_names size time hash }
{
    match (size, time, hash) {
        (true, false, false) => b"size".as_slice(),
        (false, true, false) => b"modtime".as_slice(),
        (false, false, true) => b"checksum".as_slice(),
        (true, true, false) => b"size,modtime".as_slice(),
        (true, false, true) => b"size,checksum".as_slice(),
        (false, true, true) => b"modtime,checksum".as_slice(),
        (true, true, true) => b"size,modtime,checksum".as_slice(),
        (false, false, false) => b"".as_slice(),
    }
}

// The fields whose names these are.
fn read_fields(text: &[u8]) -> Option<Compare>
    ensures found { IfSome result (λ fields. AreFields fields × (text.now ≡ fields_text fields)) }
    ensures none { IfNone result ((fields : Compare) → AreFields fields → text.now ≡ fields_text fields → ⊥) }
{
    let (size, time, hash) = if text == b"size".as_slice() {
        (true, false, false)
    } else if text == b"modtime".as_slice() {
        (false, true, false)
    } else if text == b"checksum".as_slice() {
        (false, false, true)
    } else if text == b"size,modtime".as_slice() {
        (true, true, false)
    } else if text == b"size,checksum".as_slice() {
        (true, false, true)
    } else if text == b"modtime,checksum".as_slice() {
        (false, true, true)
    } else if text == b"size,modtime,checksum".as_slice() {
        (true, true, true)
    } else {
        return None;
    };
    Some(Compare {
        size,
        time,
        hash,
        window: Window::Ns1,
    })
}

// A decimal in the range of stamps.
fn read_stamp(text: &[u8]) -> Option<u64>
    ensures found { IfSome result (λ stamp. (1 ≤ stamp) × (stamp ≤ 999_999_999_999_999_999) × (text.now ≡ decimal stamp)) }
    ensures none { IfNone result ((stamp : ℕ) → 1 ≤ stamp → stamp ≤ 999_999_999_999_999_999 → text.now ≡ decimal stamp → ⊥) }
{
    let stamp = read_decimal(text)?;
    if stamp == 0 || stamp > MAX_STAMP {
        return None;
    }
    Some(stamp)
}

// The stamp and the fields of a text of version 2.
fn read_second(text: &[u8]) -> Option<(u64, Compare)>
    ensures found { IfSome result (λ x. (1 ≤ x.0) × (x.0 ≤ 999_999_999_999_999_999) × AreFields x.1
        × (text.now ≡ decimal x.0 ++ (codes " fields " ++ fields_text x.1))) }
    ensures none { IfNone result ((stamp : ℕ) (fields : Compare) → 1 ≤ stamp → stamp ≤ 999_999_999_999_999_999 → AreFields fields
        → text.now ≡ decimal stamp ++ (codes " fields " ++ fields_text fields) → ⊥) }
{
    let (digits, rest) = word(text)?;
    let names = after(b"fields ", rest)?;
    Some((read_stamp(digits)?, read_fields(names)?))
}

/// What a first line says.
pub(crate) fn read_header(line: &[u8]) -> Option<Header>
    ensures found { IfSome result (λ header. IsHeader header × (line.now ≡ header_line header)) }
    ensures none { IfNone result ((header : Header) → IsHeader header → line.now ≡ header_line header → ⊥) }
{
    if let Some(stamp) = after(b"# bisync listing v1 stamp ", line) {
        return Some(Header {
            stamp: read_stamp(stamp)?,
            fields: None,
        });
    }
    let text = after(b"# bisync listing v2 stamp ", line)?;
    let (stamp, fields) = read_second(text)?;
    Some(Header {
        stamp,
        fields: Some(fields),
    })
}

/// The number of file lines that an end line says.
pub(crate) fn read_end(line: &[u8]) -> Option<u64>
    ensures found { IfSome result (λ count. (count < 2 ^ 64) × (line.now ≡ end_line count)) }
    ensures none { IfNone result ((count : ℕ) → count < 2 ^ 64 → line.now ≡ end_line count → ⊥) }
{
    let text = after(b"# end ", line)?;
    let (digits, rest) = word(text)?;
    if rest != b"files".as_slice() {
        return None;
    }
    Some(read_decimal(digits)?)
}
