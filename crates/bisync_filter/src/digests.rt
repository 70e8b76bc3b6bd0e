//! The text of a digest.

ghost use Rattle.std.specs.Prelude.{◌≡◌, ◌↔◌, List, ℕ, Some, IfSome, IsSome, IsTrue};
ghost use Rattle.hex.specs.Hex.{encode_lower};
ghost use Rattle.bisync_filter.specs.Digests.{IsDigest, IsDigestForm, SpellsDigest, digits_of};

/// The 32 lower-case hexadecimal digits of an MD5 digest (RFC 1321). Takes no memory.
pub fn digest_text(digest: &[u8; 16]) -> [u8; 32]
    ensures { result ≡ encode_lower digest.now }
{
    let mut text = [0; 32];
    let _ = hex::encode_to_slice(digest.as_slice(), &mut text);
    text
}

/// The digest of a text of 32 lower-case hexadecimal digits with at most one newline after them. None
/// exactly where the text has another form. Takes no memory.
pub fn read_digest(text: &[u8]) -> Option<[u8; 16]>
    ensures found { IfSome result (λ digest. SpellsDigest digest text.now) }
    ensures exact { (digest : List ℕ) → IsDigest digest → SpellsDigest digest text.now → result ≡ Some digest }
    ensures form { IsSome result ↔ IsDigestForm text.now }
{
    let digits = without_newline(text);
    let mut digest = [0; 16];
    if hex::decode_to_slice(digits, &mut digest).is_err() {
        return None;
    }
    if !is_written_as(&digest, digits) {
        return None;
    }
    Some(digest)
}

/// Whether these are the digits of the digest.
fn is_written_as(digest: &[u8; 16], digits: &[u8]) -> bool
    ensures { IsTrue result ↔ (digits.now ≡ encode_lower digest.now) }
{
    digest_text(digest).as_slice() == digits
}

/// A text without the newline behind 32 bytes.
fn without_newline(text: &[u8]) -> &[u8]
    ensures { result.now ≡ digits_of text.now }
{
    if text.len() == 33 && text[32] == b'\n' {
        text.split_at(32).0
    } else {
        text
    }
}
