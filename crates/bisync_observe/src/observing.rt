//! A remote as a run sees it.

ghost use Rattle.std.specs.Prelude.{◌≡◌, IfOk, IfErr, IsTrue};
ghost use Rattle.bisync_device.specs.Faults.{HasCause};
ghost use Rattle.bisync_filter.specs.Passing.{rules_pass};
ghost use Rattle.bisync_tree.specs.Tree.{Tree};
ghost use Rattle.bisync_observe.specs.FileReading.{OnlyReads};
ghost use Rattle.bisync_observe.specs.Observing.{ArePassingNames, AreWithin, HaveDigestsFor, IsCause, IsSeenOf, is_remote_fault};

use crate::ObserveFault;
use crate::counts::check_limits;
use crate::listed_rows::{put_in_order, read_rows};
use crate::seeing::see_rows;
use bisync_device::{ListFault, Remote};
use bisync_filter::Rules;
use bisync_tree::{Compare, Limits, Listing, Names};
use std::alloc::Global;

/// What a remote has.
#[derive(Drop)]
pub struct Seen {
    /// All paths that are listed.
    pub names: Names,
    /// Those that pass, with their entries.
    pub listing: Listing,
}

/// The names and the listing of a remote.
///
/// It is listed once. Files are opened and read only where checksums are compared, the passing ones
/// in byte order of their paths. Of two equal listed texts the earlier counts.
///
/// # Errors
///
/// `RemoteFault` where a call failed, `BadPath` with the first listed text that is no path, `TooMany`
/// where a limit is passed, `Moved` with the first file that is gone or has another size than
/// listed, `OutOfMemory` where memory was refused. The order is this: the list, its paths, the
/// limits, the files.
pub fn observe<R: Remote>(
    alloc: Global,
    remote: &mut R,
    rules: &Rules,
    compare: &Compare,
    limits: &Limits,
) -> Result<Seen, ObserveFault>
    ensures only_reads { OnlyReads R.tells (R.state remote.old) (R.state remote.new) }
    ensures cause { HasCause (is_remote_fault result) (R.state remote.old).faults (R.state remote.new).faults }

    // Whatever the remote tells.
    ensures passing { IfOk result (λ seen. ArePassingNames (rules_pass rules.now) seen.names seen.listing) }
    ensures digests { IfOk result (λ seen. HaveDigestsFor compare.now seen.listing) }
    ensures within { IfOk result (λ seen. AreWithin limits.now seen.names) }
    ensures refusal { IfErr result (λ fault. IsCause R.tells (R.state remote.old).tree compare.now (rules_pass rules.now) limits.now fault) }
    // It is what some tree would show.
    ensures some { IfOk result (λ seen. (tree : Tree) × IsSeenOf compare.now (rules_pass rules.now) tree seen.names seen.listing) }

    // Where it tells what it holds.
    ensures seen { IfOk result (λ seen. IsTrue R.tells → IsSeenOf compare.now (rules_pass rules.now) (R.state remote.old).tree seen.names seen.listing) }
{
    let mut items = Vec::new(alloc);
    match remote.list(alloc, &mut items) {
        Ok(()) => {}
        Err(ListFault::Failed) => return Err(ObserveFault::RemoteFault),
        Err(ListFault::OutOfMemory) => return Err(ObserveFault::OutOfMemory),
    }
    let mut rows = match read_rows(alloc, items) {
        Ok(rows) => rows,
        Err(fault) => return Err(fault),
    };
    match check_limits(&rows, limits) {
        Ok(()) => {}
        Err(count) => return Err(ObserveFault::TooMany(count.files, count.bytes)),
    }
    put_in_order(&mut rows)?;
    see_rows(alloc, remote, rules, compare, rows)
}
