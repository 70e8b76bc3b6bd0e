//! What a resync writes before its first step: the new listings; and the old ones fall.

ghost use Rattle.std.specs.Prelude.{◌≡◌, ◌⊎◌, ◌≤◌, ℕ, Option, IsTrue, OnOk, None, is_err, length};
ghost use Rattle.bisync_tree.specs.declared.entries.Compare.{Compare};
ghost use Rattle.bisync_listing.specs.Spelling.{listing_text};
ghost use Rattle.bisync_plan.specs.Plans.{AreWritable, header_of};
ghost use Rattle.bisync_device.specs.WorkFolder.{WorkFolder};
ghost use Rattle.bisync_work.specs.Base.{Base, IsBase, HasNoBase};
ghost use Rattle.bisync_work.specs.Moves.{IsReady};
ghost use Rattle.bisync_work.specs.WorkCalls.{AreWorkCalls};
ghost use Rattle.bisync_run.specs.OwnNames.{HoldsOwn};
ghost use Rattle.bisync_run.specs.ResyncWriting.{Loses, but_rewritten, AreRewritten, next_base};

use crate::prepared::Prepared;
use bisync_device::{Failed, Work};
use bisync_plan::planning::header;
use bisync_work::{fall, store_digest, write_new};

/// Writes the new listings, lets the old ones fall, and stores the digest of the filters file where
/// one is used. Takes no memory.
pub fn write_resync<W: Work>(
    work: &mut W,
    prepared: &Prepared,
    digest: &Option<[u8; 16]>,
) -> Result<(), Failed>
    requires writable { AreWritable (header_of prepared.now.stamp prepared.now.compare) prepared.now.plan }
    ensures loses { IsTrue W.tells → Loses (W.state work.old).folder (W.state work.new).folder }
    ensures rest { IsTrue W.tells → but_rewritten (W.state work.new).folder ≡ but_rewritten (W.state work.old).folder }
    ensures no_digest { IsTrue W.tells → digest.now ≡ None → (W.state work.new).folder.filters_md5 ≡ (W.state work.old).folder.filters_md5 }
    ensures names { IsTrue W.tells → (limit : ℕ) (compare : Compare) (k : WorkFolder) → HoldsOwn limit compare k (W.state work.old).folder → HoldsOwn limit compare k (W.state work.new).folder }
    ensures digest_late { IsTrue W.tells → (limit : ℕ) (base : Option Base) → IsBase limit (W.state work.old).folder base → (IsBase limit (W.state work.new).folder base × ((W.state work.new).folder.filters_md5 ≡ (W.state work.old).folder.filters_md5)) ⊎ HasNoBase limit (W.state work.new).folder }
    ensures rewritten { IsTrue W.tells → OnOk result (AreRewritten digest.now (W.state work.old).folder (W.state work.new).folder) }
    ensures ready { IsTrue W.tells → OnOk result ((limit : ℕ) → length (listing_text (header_of prepared.now.stamp prepared.now.compare) prepared.now.plan.final1) ≤ limit → length (listing_text (header_of prepared.now.stamp prepared.now.compare) prepared.now.plan.final2) ≤ limit
        → IsReady limit (W.state work.new).folder (next_base prepared.now)) }
    ensures no_base { IsTrue W.tells → OnOk result ((limit : ℕ) → HasNoBase limit (W.state work.new).folder) }
    ensures calls { AreWorkCalls (is_err result) (W.state work.old) (W.state work.new) }
{
    let header = header(prepared.stamp, &prepared.compare);
    write_new(work, &header, &prepared.plan.final1, &prepared.plan.final2)?;
    fall(work)?;
    let Some(digest) = digest else {
        return Ok(());
    };
    store_digest(work, digest)?;
    Ok(())
}
