//! The ends of a run that a guard stops or that has no plan.

ghost use Rattle.std.specs.Prelude.{◌≡◌};
ghost use Rattle.bisync_run.specs.Looking.{unplanned_end};
ghost use Rattle.bisync_run.specs.OrdinaryLooks.{guard_end};

use bisync_guard::Guard;
use bisync_plan::PlanFault;
use bisync_report::End;

/// The end of a run that a guard stops.
pub fn guarded(guard: Guard) -> End
    ensures { result ≡ guard_end guard }
{
    match guard {
        Guard::CheckAccess(side, path) => End::CheckAccess(side, path),
        Guard::EmptyCurrent(side) => End::EmptyCurrent(side),
        Guard::TooManyDeletes(side, gone, all) => End::TooManyDeletes(side, gone, all),
        Guard::AllChanged(side, all) => End::AllChanged(side, all),
    }
}

/// The end of a run that has no plan.
pub fn unplanned(fault: PlanFault) -> End
    ensures { result ≡ unplanned_end fault }
{
    match fault {
        PlanFault::TooLong(side, path) => End::NameTooLong(side, path),
        PlanFault::ListingTooLong(side, bytes) => End::ListingTooLong(side, bytes),
        PlanFault::OutOfSync(path, one, two) => End::OutOfSync(path, one, two),
        PlanFault::OutOfMemory => End::OutOfMemory,
    }
}
