ghost use Rattle.std.specs.Prelude.{◌≡◌, List, ℕ, IfOk};

use crate::OutOfMemory;
use std::alloc::Global;
use std::marker::Model;

/// A list of bytes.
#[derive(Drop)]
pub struct Text {
    bytes: Vec<u8>,
}

impl Model for Text {
    ghost Value = { List ℕ };

    ghost view = { λ text. text.bytes.items };
}

impl Text {
    /// A text of a copy of these bytes.
    pub fn from_bytes(alloc: Global, bytes: &[u8]) -> Result<Text, OutOfMemory>
        ensures { IfOk result (λ text. text ≡ bytes.now) }
    {
        Ok(Text {
            bytes: bytes.to_vec(alloc)?,
        })
    }

    /// The text of these bytes, which takes no memory.
    pub fn from_vec(bytes: Vec<u8>) -> Text
        ensures { result ≡ bytes.items }
    {
        Text { bytes }
    }

    /// The bytes.
    pub fn as_bytes(&self) -> &[u8]
        ensures { result.now ≡ self.now }
    {
        &self.bytes
    }

    /// A text of the same bytes.
    pub fn copy(&self, alloc: Global) -> Result<Text, OutOfMemory>
        ensures { IfOk result (λ text. text ≡ self.now) }
    {
        Text::from_bytes(alloc, &self.bytes)
    }
}

#[cfg(test)]
mod tests {
    use super::*;
    use std::test::Fail;

    #[test]
    fn keeps_and_copies_bytes(rt: HostRuntime) -> Result<(), Fail> {
        let text = Text::from_bytes(rt.alloc(), b"ab")?;
        assert_eq!(rt; text.as_bytes(), b"ab".as_slice());
        assert_eq!(rt; text.copy(rt.alloc())?.as_bytes(), b"ab".as_slice());
        assert_eq!(rt;
            Text::from_vec(b"ab".to_vec(rt.alloc())?).as_bytes(),
            b"ab".as_slice()
        );
        Ok(())
    }
}
