ghost use Rattle.std.specs.Prelude.{◌≡◌, ◌≤◌, ◌++◌, List, ℕ, All, IfOk};
ghost use Rattle.bisync_text.specs.Quote.{quoted};

use crate::{OutOfMemory, QuotedByte, Text};
use std::alloc::Global;

/// The quoted text of the bytes. Quoted texts are this project's own.
#[tactic(auto, unfolding(crate::specs::Quote::quoted))]
pub fn quote(alloc: Global, bytes: &[u8]) -> Result<Text, OutOfMemory>
    ensures { IfOk result (λ text. text ≡ quoted bytes.now) }
{
    let mut text = Vec::with_capacity(alloc, bytes.len() + 2)?;
    text.push(b'"')?;
    for byte in bytes {
        text.extend_from_slice(QuotedByte::new(*byte).as_bytes())?;
    }
    text.push(b'"')?;
    Ok(Text::from_vec(text))
}

/// A law: a quoted text is that of one list of bytes alone, and no quoted text begins another.
pub fn quoted_texts_are_apart()
    ensures injective { (a b : List ℕ) → quoted a ≡ quoted b → a ≡ b }
    ensures prefix_free { (a b rest more : List ℕ) → quoted a ++ rest ≡ quoted b ++ more → (a ≡ b) × (rest ≡ more) }
{}

/// A law: a quoted text has no byte below 32, and so no newline.
pub fn quoted_texts_are_graphic()
    ensures { (bytes : List ℕ) → All (λ b. 32 ≤ b) (quoted bytes) }
{}

#[cfg(test)]
mod tests {
    use super::*;
    use std::test::Fail;

    #[test]
    fn writes_escapes_where_they_are_due(rt: HostRuntime) -> Result<(), Fail> {
        let cases = [
            (b"a\"b\\c".as_slice(), b"\"a\\x22b\\x5cc\"".as_slice()),
            (b"\x09\x7f".as_slice(), b"\"\\x09\\x7f\"".as_slice()),
            (b"".as_slice(), b"\"\"".as_slice()),
            (b"a b/\xc3\xa9~".as_slice(), b"\"a b/\xc3\xa9~\"".as_slice()),
        ];
        for (bytes, text) in cases {
            assert_eq!(rt; quote(rt.alloc(), bytes)?.as_bytes(), text);
        }
        Ok(())
    }
}
