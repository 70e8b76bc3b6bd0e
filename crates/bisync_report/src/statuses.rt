//! Exit statuses, and whether the base falls.

ghost use Rattle.std.specs.Prelude.{◌≡◌};
ghost use Rattle.bisync_report.specs.Status.{status_of, falls_of};

use crate::End;

/// The exit status of an end: 0, 1, 2 or 7. With `--resilient` an end that falls has 1 in place of 7.
pub fn status(end: &End, resilient: bool) -> u8
    ensures { result ≡ status_of end.now resilient }
{
    match end {
        End::Done { .. } | End::Resynced { .. } | End::DryRun | End::InSync | End::Demo => 0,
        End::Checked { differ } => u8::from(*differ > 0),
        End::Usage(_) | End::NoFilters | End::BadRule(_) | End::NotBuilt => 2,
        End::BadListing(..) | End::NeedResync(_) => 7,
        _ if falls(end) && !resilient => 7,
        _ => 1,
    }
}

/// Whether this end asks for the fall of the base, in a run that holds the lock, without
/// `--resilient` and `--dry-run`.
pub fn falls(end: &End) -> bool
    ensures { result ≡ falls_of end.now }
{
    matches!(
        end,
        End::WorkFault
            | End::FiltersChanged { .. }
            | End::EmptyPrior(_)
            | End::RemoteFault(_)
            | End::BadPath(..)
            | End::TooMany(..)
            | End::CheckAccess(..)
            | End::EmptyCurrent(_)
            | End::OutOfSync(..)
            | End::Moved(..)
    )
}
