//! The digest beside the filters file.

ghost use Rattle.std.specs.Prelude.{◌≡◌, ℕ, List, None, Some, IsTrue, OnOk, IfOk, IfSome, is_err};
ghost use Rattle.hex.specs.Hex.{encode_lower};
ghost use Rattle.bisync_filter.specs.Digests.{IsDigest};
ghost use Rattle.bisync_device.specs.Faults.{HasCause};
ghost use Rattle.bisync_device.specs.Work.{KeepsFolder};
ghost use Rattle.bisync_device.specs.WorkFolder.{Kept, with_held};
ghost use Rattle.bisync_device.specs.declared.works.WorkName.TheVariants.{FiltersMd5};
ghost use Rattle.bisync_work.specs.DigestFiles.{HoldsDigest};
ghost use Rattle.bisync_work.specs.KeptTexts.{ChangesOnly};

use crate::fronts::read_front;
use crate::kept_texts::write_kept;
use bisync_device::{Failed, Work, WorkName};
use bisync_filter::{digest_text, read_digest};

/// The stored digest: 32 lower-case hexadecimal digits with at most one newline after them. None
/// exactly where the digest file isn't there or holds another text. Takes no memory.
///
/// # Errors
///
/// `Failed` only where a call of the device failed.
pub fn stored_digest<W: Work>(work: &mut W) -> Result<Option<[u8; 16]>, Failed>
    ensures found { IsTrue W.tells → IfOk result (λ found. IfSome found (λ digest. HoldsDigest digest (W.state work.old).folder.filters_md5)) }
    ensures exact { IsTrue W.tells → IfOk result (λ found. (digest : List ℕ) → IsDigest digest → HoldsDigest digest (W.state work.old).folder.filters_md5 → found ≡ Some digest) }
    ensures folder { KeepsFolder W.tells (W.state work.old) (W.state work.new) }
    ensures left { (W.state work.old).left ≡ None → (W.state work.new).left ≡ None }
    ensures cause { HasCause (is_err result) (W.state work.old).faults (W.state work.new).faults }
{
    let mut buffer = [0; 34];
    match read_front(work, WorkName::FiltersMd5, &mut buffer)? {
        Some(count) => Ok(read_digest(&buffer[..count])),
        None => Ok(None),
    }
}

/// Writes the digits of a digest to the digest file and syncs them. Takes no memory.
///
/// # Errors
///
/// `Failed` only where a call of the device failed. The digest file may then hold anything.
pub fn store_digest<W: Work>(work: &mut W, digest: &[u8; 16]) -> Result<(), Failed>
    ensures stored { IsTrue W.tells → OnOk result ((W.state work.new).folder ≡ with_held FiltersMd5 (Kept (encode_lower digest.now)) (W.state work.old).folder) }
    ensures others { IsTrue W.tells → ChangesOnly FiltersMd5 (W.state work.old).folder (W.state work.new).folder }
    ensures left { (W.state work.old).left ≡ None → (W.state work.new).left ≡ None }
    ensures cause { HasCause (is_err result) (W.state work.old).faults (W.state work.new).faults }
{
    write_kept(work, WorkName::FiltersMd5, &digest_text(digest))
}
