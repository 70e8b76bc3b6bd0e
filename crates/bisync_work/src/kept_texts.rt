//! A whole text under a name.

ghost use Rattle.std.specs.Prelude.{◌≡◌, None, IsTrue, OnOk, is_err};
ghost use Rattle.bisync_device.specs.Faults.{HasCause};
ghost use Rattle.bisync_device.specs.WorkFolder.{Kept, with_held};
ghost use Rattle.bisync_work.specs.KeptTexts.{ChangesOnly};

use bisync_device::{Failed, Work, WorkName};

/// Writes a text under a name and syncs it.
pub fn write_kept<W: Work>(work: &mut W, name: WorkName, text: &[u8]) -> Result<(), Failed>
    ensures written { IsTrue W.tells → OnOk result ((W.state work.new).folder ≡ with_held name (Kept text.now) (W.state work.old).folder) }
    ensures others { IsTrue W.tells → ChangesOnly name (W.state work.old).folder (W.state work.new).folder }
    ensures left { (W.state work.old).left ≡ None → (W.state work.new).left ≡ None }
    ensures cause { HasCause (is_err result) (W.state work.old).faults (W.state work.new).faults }
{
    work.begin(name)?;
    work.append(text)?;
    work.sync()?;
    Ok(())
}
