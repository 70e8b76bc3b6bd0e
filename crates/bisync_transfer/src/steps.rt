ghost use Rattle.std.specs.Prelude.{◌≡◌, ◌<◌, length, IsTrue};
ghost use Rattle.bisync_model.specs.Trees.{by_side};
ghost use Rattle.bisync_transfer.specs.CallsMade.{MadeCalls};
ghost use Rattle.bisync_transfer.specs.StepEffect.{Performs, LeavesOther, is_fault_of, source_of};
ghost use Rattle.bisync_transfer.specs.StepEffect.{HasStepFile, IsMovedUnless, TellsMoved, ReadsPastBy};
ghost use Rattle.bisync_transfer.specs.StepAnswer.{copy_answer, change_answer};

use crate::copies::{CopyFault, copy_file};
use bisync_device::{Failed, Remote};
use bisync_tree::{Entry, Side, Step};

/// Why a step wasn't done, or may not have been.
#[derive(Clone, Copy, Debug, PartialEq, Eq)]
pub enum StepFault {
    /// A call of this side's remote failed, and its count of faults rose: it is greater than
    /// before, or stands at the greatest `u64`.
    RemoteFault(Side),
    /// The file on this side isn't as listed: the listed entry, and what was read. That is the
    /// number of the bytes read, the listed time and, where a digest is listed, their digest. It is
    /// None where the file isn't there, or has more bytes than the greatest `u64`.
    Moved(Side, Entry, Option<Entry>),
}

/// Does one step. Takes no memory; a copy reads by pieces as large as the buffer.
///
/// A copy opens the file, begins a part, reads to the end of the file and adds each piece to the
/// part, and commits with the listed time. It ends right after a read that goes past the listed
/// size, and before it commits where the number of bytes differs from the listed one, or the
/// digest, where one is listed.
pub fn perform<A: Remote, B: Remote>(
    step: &Step,
    one: &mut A,
    two: &mut B,
    buffer: &mut [u8],
) -> Result<(), StepFault>
    requires room { 0 < length buffer.old }
    ensures one { MadeCalls (is_fault_of Side.One result) (A.state one.old) (A.state one.new) }
    ensures two { MadeCalls (is_fault_of Side.Two result) (B.state two.old) (B.state two.new) }
    ensures other { LeavesOther step.now
        (by_side (A.state one.old) (B.state two.old)) (by_side (A.state one.new) (B.state two.new)) }
    ensures effect { Performs (by_side A.tells B.tells) step.now
        (by_side (A.state one.old) (B.state two.old)) (by_side (A.state one.new) (B.state two.new))
        result }
    ensures exact { IsTrue (by_side A.tells B.tells (source_of step.now)) →
        IsMovedUnless (HasStepFile step.now
        (by_side (A.state one.old) (B.state two.old) (source_of step.now))) result }
    ensures moved { TellsMoved (by_side A.tells B.tells) step.now
        (by_side (A.state one.old) (B.state two.old)) result }
    // A copy ends with the read that goes past the listed size.
    ensures limit { ReadsPastBy (length buffer.old) result }
{
    match step {
        Step::Copy { from, path, entry } => match from {
            Side::One => answer_copy(Side::One, entry, copy_file(path, entry, one, two, buffer)),
            Side::Two => answer_copy(Side::Two, entry, copy_file(path, entry, two, one, buffer)),
        },
        Step::Rename {
            side,
            from,
            to,
            entry,
        } => match side {
            Side::One => answer_change(Side::One, entry, one.rename(from, to)),
            Side::Two => answer_change(Side::Two, entry, two.rename(from, to)),
        },
        Step::Delete { side, path, entry } => match side {
            Side::One => answer_change(Side::One, entry, one.delete(path)),
            Side::Two => answer_change(Side::Two, entry, two.delete(path)),
        },
    }
}

/// What a copy from this side answers.
fn answer_copy(from: Side, listed: &Entry, copied: Result<(), CopyFault>) -> Result<(), StepFault>
    ensures { result ≡ copy_answer from listed.now copied }
{
    match copied {
        Ok(()) => Ok(()),
        Err(CopyFault::Source) => Err(StepFault::RemoteFault(from)),
        Err(CopyFault::Destination) => Err(StepFault::RemoteFault(from.other())),
        Err(CopyFault::Moved(read)) => Err(StepFault::Moved(from, *listed, read)),
    }
}

/// What a rename or a delete on this side answers.
fn answer_change(side: Side, listed: &Entry, found: Result<bool, Failed>) -> Result<(), StepFault>
    ensures { result ≡ change_answer side listed.now found }
{
    match found {
        Ok(true) => Ok(()),
        Ok(false) => Err(StepFault::Moved(side, *listed, None)),
        Err(Failed) => Err(StepFault::RemoteFault(side)),
    }
}
