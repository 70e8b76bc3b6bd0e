//! The moves of a work folder, each by renames. At each point the folder has one base or none.

ghost use Rattle.std.specs.Prelude.{◌≡◌, ◌<◌, ◌^◌, ℕ, IsTrue, OnOk, is_err};
ghost use Rattle.bisync_work.specs.WorkCalls.{AreWorkCalls};
ghost use Rattle.bisync_work.specs.Base.{Base, HasBaseIn};
ghost use Rattle.bisync_work.specs.Moves.{SetsBack, Falls, IsFallen, IsReady, Switches, IsSwitched};
ghost use Rattle.bisync_work.specs.Renames.{AreBegun, after_renames, back_renames, switch_renames, fall_renames};
ghost use Rattle.bisync_work.specs.declared.bases.Pair.TheVariants.{Old};

use crate::Pair;
use bisync_device::{Failed, Work, WorkName};

/// Moves the listings of the base, which `pair` names, to `1.lst-old` and `2.lst-old`. The base is
/// the same at each point.
pub fn set_back<W: Work>(work: &mut W, pair: Pair) -> Result<(), Failed>
    ensures begun { IsTrue W.tells → AreBegun (back_renames pair) (W.state work.old).folder (W.state work.new).folder }
    ensures done { IsTrue W.tells → OnOk result ((W.state work.new).folder ≡ after_renames (back_renames pair) (W.state work.old).folder) }
    ensures sets_back { IsTrue W.tells → SetsBack pair (W.state work.old).folder (W.state work.new).folder }
    ensures back { IsTrue W.tells → (limit : ℕ) (base : Base) → HasBaseIn limit (W.state work.old).folder pair base → OnOk result (HasBaseIn limit (W.state work.new).folder Old base) }
    ensures calls { AreWorkCalls (is_err result) (W.state work.old) (W.state work.new) }
{
    match pair {
        Pair::Current => {
            work.rename(WorkName::One, WorkName::OneOld)?;
            work.rename(WorkName::Two, WorkName::TwoOld)?;
        }
        Pair::Mixed => {
            work.rename(WorkName::Two, WorkName::TwoOld)?;
        }
        Pair::Old => {}
    }
    Ok(())
}

/// Moves the new listings to `1.lst` and `2.lst`. Where they are ready, the second rename alone changes
/// the base.
pub fn switch<W: Work>(work: &mut W) -> Result<(), Failed>
    ensures begun { IsTrue W.tells → AreBegun switch_renames (W.state work.old).folder (W.state work.new).folder }
    ensures done { IsTrue W.tells → OnOk result ((W.state work.new).folder ≡ after_renames switch_renames (W.state work.old).folder) }
    ensures switches { IsTrue W.tells → Switches (W.state work.old).folder (W.state work.new).folder }
    ensures switched { IsTrue W.tells → (limit : ℕ) (next : Base) → limit < 2 ^ 64 → IsReady limit (W.state work.old).folder next → OnOk result (IsSwitched limit next (W.state work.old).folder (W.state work.new).folder) }
    ensures calls { AreWorkCalls (is_err result) (W.state work.old) (W.state work.new) }
{
    work.rename(WorkName::OneNew, WorkName::One)?;
    work.rename(WorkName::TwoNew, WorkName::Two)?;
    Ok(())
}

/// Moves the listings away, the older ones first, to `1.lst-err` and `2.lst-err`. At each point the
/// base is the one before or there is none.
pub fn fall<W: Work>(work: &mut W) -> Result<(), Failed>
    ensures begun { IsTrue W.tells → AreBegun fall_renames (W.state work.old).folder (W.state work.new).folder }
    ensures done { IsTrue W.tells → OnOk result ((W.state work.new).folder ≡ after_renames fall_renames (W.state work.old).folder) }
    ensures falls { IsTrue W.tells → Falls (W.state work.old).folder (W.state work.new).folder }
    ensures fallen { IsTrue W.tells → OnOk result (IsFallen (W.state work.old).folder (W.state work.new).folder) }
    ensures calls { AreWorkCalls (is_err result) (W.state work.old) (W.state work.new) }
{
    work.rename(WorkName::OneOld, WorkName::OneErr)?;
    work.rename(WorkName::One, WorkName::OneErr)?;
    work.rename(WorkName::TwoOld, WorkName::TwoErr)?;
    work.rename(WorkName::Two, WorkName::TwoErr)?;
    Ok(())
}
