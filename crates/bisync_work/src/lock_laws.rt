//! Laws on locks. Each is the contract of a function that does nothing.

ghost use Rattle.std.specs.Prelude.{◌≡◌, ◌↔◌, ◌≤◌, ℕ, ℤ, List, Option, length};
ghost use Rattle.bisync_tree.specs.declared.expiries.Until.{Until};
ghost use Rattle.bisync_device.specs.WorkFolder.{Held, WorkFolder, IsSettled};
ghost use Rattle.bisync_device.specs.declared.works.WorkName.TheVariants.{FiltersMd5, Lock};
ghost use Rattle.bisync_work.specs.KeptTexts.{ChangesOnly};
ghost use Rattle.bisync_work.specs.LockTexts.{IsExpiry, SpellsLock, SaysUntil, lock_text, until_of};
ghost use Rattle.bisync_work.specs.Locks.{Blocks, IsFree, ChangesLock};

/// Each expiry has one lock text, within 128 bytes, which is read back as that expiry, and no text
/// says two things.
pub fn lock_texts_are_read_back()
    ensures one_text { (expiry : Option ℤ) (text : List ℕ) → IsExpiry expiry → SpellsLock expiry text ↔ (text ≡ lock_text expiry) }
    ensures read_back { (expiry : Option ℤ) → IsExpiry expiry → SaysUntil (until_of expiry) (lock_text expiry) }
    ensures one_until { (a b : Until) (text : List ℕ) → SaysUntil a text → SaysUntil b text → a ≡ b }
    ensures short { (expiry : Option ℤ) → length (lock_text expiry) ≤ 128 }
{}

/// A lock that blocks isn't free, and blocks until one moment.
pub fn a_lock_blocks_or_is_free()
    ensures apart { (now : ℤ) (until : Until) (lock : Held) → IsFree now lock → Blocks now until lock → ⊥ }
    ensures one { (now : ℤ) (a b : Until) (lock : Held) → Blocks now a lock → Blocks now b lock → a ≡ b }
{}

/// The calls on the lock and on the stored digest leave a settled folder settled.
pub fn locks_and_digests_leave_a_folder_settled()
    ensures lock { (old new : WorkFolder) → ChangesLock old new → IsSettled old → IsSettled new }
    ensures digest { (old new : WorkFolder) → ChangesOnly FiltersMd5 old new → IsSettled old → IsSettled new }
{}
