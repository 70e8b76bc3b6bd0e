//! The lock, which one run at a time holds.

ghost use Rattle.std.specs.Prelude.{◌≡◌, ◌⊎◌, None, Some, IsTrue, OnOk, IfOk, is_err};
ghost use Rattle.std.specs.Bool.{OnTrue, OnFalse};
ghost use Rattle.bisync_device.specs.Faults.{HasCause};
ghost use Rattle.bisync_device.specs.Work.{KeepsFolder};
ghost use Rattle.bisync_device.specs.WorkFolder.{Absent, with_held};
ghost use Rattle.bisync_device.specs.declared.works.WorkName.TheVariants.{Lock};
ghost use Rattle.bisync_tree.specs.Ranges.{IsLongEnough};
ghost use Rattle.bisync_work.specs.LockTexts.{expiry_of, lock_text};
ghost use Rattle.bisync_work.specs.Locks.{HoldsAt, IsOver, ChangesLock, ReplacesLock, MakesLock, Takes, TellsHolding, KeepsBlocking, relocked, Makes, MayMake, SaysIfThere};

use crate::fronts::read_front;
use crate::kept_texts::write_kept;
use crate::lock_texts::{LockText, read_until};
use bisync_device::{Failed, Work, WorkName};
use bisync_tree::Until;

/// Whether the lock was taken.
#[derive(Clone, Copy, Debug, PartialEq, Eq)]
pub enum Taken {
    Got,
    /// A lock blocks. It holds until then.
    Held(Until),
}

/// Takes the lock at the moment `now`, in nanoseconds since 1970-01-01T00:00:00 UTC, or answers `Held`
/// where a lock blocks. The lock holds `max_lock` nanoseconds, or for ever.
///
/// Where no lock is there, one is made. A lock whose expiry isn't after `now` is replaced. Any other
/// blocks, also one that can't be read or has more than 128 bytes. Takes no memory.
///
/// # Errors
///
/// `Failed` only where a call of the device failed. The lock is then as before, or new, or, where none
/// was there, may hold any bytes that aren't synced.
pub fn take_lock<W: Work>(work: &mut W, now: i64, max_lock: Option<i64>) -> Result<Taken, Failed>
    requires { IsLongEnough max_lock }
    ensures takes { IsTrue W.tells → IfOk result (Takes now (lock_text (expiry_of now max_lock)) (W.state work.old).folder (W.state work.new).folder) }
    ensures holding { IfOk result (TellsHolding now) }

    // Whatever is answered:
    ensures blocking { IsTrue W.tells → KeepsBlocking now (W.state work.old).folder (W.state work.new).folder }
    ensures lock { IsTrue W.tells → MakesLock (lock_text (expiry_of now max_lock)) (W.state work.old).folder.lock (W.state work.new).folder.lock }
    ensures others { IsTrue W.tells → ChangesLock (W.state work.old).folder (W.state work.new).folder }
    ensures left { (W.state work.old).left ≡ None → (W.state work.new).left ≡ None }
    ensures cause { HasCause (is_err result) (W.state work.old).faults (W.state work.new).faults }
{
    let text = LockText::new(now, max_lock);
    if make_lock(work, text.as_bytes())? {
        return Ok(Taken::Got);
    }
    let until = see_lock(work)?;
    if holds_at(until, now) {
        return Ok(Taken::Held(until));
    }
    replace_lock(work, text.as_bytes())?;
    Ok(Taken::Got)
}

/// Writes the lock again, so that it holds `max_lock` nanoseconds from the moment `now` on. Takes no
/// memory.
///
/// # Errors
///
/// `Failed` only where a call of the device failed. The lock is then as before or new.
pub fn renew<W: Work>(work: &mut W, now: i64, max_lock: i64) -> Result<(), Failed>
    requires { IsLongEnough (Some max_lock) }
    ensures renewed { IsTrue W.tells → OnOk result ((W.state work.new).folder ≡ relocked (lock_text (expiry_of now (Some max_lock))) (W.state work.old).folder) }

    // Whatever is answered:
    ensures lock { IsTrue W.tells → ReplacesLock (lock_text (expiry_of now (Some max_lock))) (W.state work.old).folder.lock (W.state work.new).folder.lock }
    ensures others { IsTrue W.tells → ChangesLock (W.state work.old).folder (W.state work.new).folder }
    ensures left { (W.state work.old).left ≡ None → (W.state work.new).left ≡ None }
    ensures cause { HasCause (is_err result) (W.state work.old).faults (W.state work.new).faults }
{
    let text = LockText::new(now, Some(max_lock));
    replace_lock(work, text.as_bytes())
}

/// Removes the lock. Takes no memory.
///
/// # Errors
///
/// `Failed` only where the call of the device failed. The lock is then as before or gone.
pub fn free_lock<W: Work>(work: &mut W) -> Result<(), Failed>
    ensures freed { IsTrue W.tells → OnOk result ((W.state work.new).folder ≡ with_held Lock Absent (W.state work.old).folder) }

    // Whatever is answered:
    ensures others { IsTrue W.tells → ((W.state work.new).folder ≡ (W.state work.old).folder) ⊎ ((W.state work.new).folder ≡ with_held Lock Absent (W.state work.old).folder) }
    ensures left { (W.state work.old).left ≡ None → (W.state work.new).left ≡ None }
    ensures cause { HasCause (is_err result) (W.state work.old).faults (W.state work.new).faults }
{
    let _was_there = work.remove(WorkName::Lock)?;
    Ok(())
}

/// Makes the lock. False where one is there.
fn make_lock<W: Work>(work: &mut W, text: &[u8]) -> Result<bool, Failed>
    ensures makes { IsTrue W.tells → IfOk result (Makes text.now (W.state work.old).folder (W.state work.new).folder) }
    ensures may { IsTrue W.tells → MayMake text.now (W.state work.old).folder (W.state work.new).folder }
    ensures left { (W.state work.old).left ≡ None → (W.state work.new).left ≡ None }
    ensures cause { HasCause (is_err result) (W.state work.old).faults (W.state work.new).faults }
{
    if !work.create(WorkName::Lock)? {
        return Ok(false);
    }
    work.append(text)?;
    work.sync()?;
    Ok(true)
}

/// Until when the lock holds that is there. Unreadable where none is there.
fn see_lock<W: Work>(work: &mut W) -> Result<Until, Failed>
    ensures says { IsTrue W.tells → IfOk result (λ until. SaysIfThere until (W.state work.old).folder.lock) }
    ensures folder { KeepsFolder W.tells (W.state work.old) (W.state work.new) }
    ensures left { (W.state work.old).left ≡ None → (W.state work.new).left ≡ None }
    ensures cause { HasCause (is_err result) (W.state work.old).faults (W.state work.new).faults }
{
    let mut buffer = [0; 129];
    match read_front(work, WorkName::Lock, &mut buffer)? {
        Some(count) => Ok(read_until(&buffer[..count])),
        None => Ok(Until::Unreadable),
    }
}

/// Whether what holds until then still holds.
fn holds_at(until: Until, now: i64) -> bool
    ensures holds { OnTrue result (HoldsAt now until) }
    ensures over { OnFalse result (IsOver now until) }
{
    match until {
        Until::Unreadable | Until::Never => true,
        Until::At(moment) => now < moment,
    }
}

/// Writes the lock by `lock-new`.
fn replace_lock<W: Work>(work: &mut W, text: &[u8]) -> Result<(), Failed>
    ensures replaced { IsTrue W.tells → OnOk result ((W.state work.new).folder ≡ relocked text.now (W.state work.old).folder) }
    ensures lock { IsTrue W.tells → ReplacesLock text.now (W.state work.old).folder.lock (W.state work.new).folder.lock }
    ensures others { IsTrue W.tells → ChangesLock (W.state work.old).folder (W.state work.new).folder }
    ensures left { (W.state work.old).left ≡ None → (W.state work.new).left ≡ None }
    ensures cause { HasCause (is_err result) (W.state work.old).faults (W.state work.new).faults }
{
    write_kept(work, WorkName::LockNew, text)?;
    let _was_there = work.rename(WorkName::LockNew, WorkName::Lock)?;
    Ok(())
}
