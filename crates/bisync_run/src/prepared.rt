use bisync_plan::Plan;
use bisync_tree::Compare;

/// What a run is about to do.
#[derive(Drop)]
pub struct Prepared {
    /// The stamp of the new listings, 1 to 5.
    pub stamp: u64,
    /// What is compared, with the window of the run.
    pub compare: Compare,
    pub plan: Plan,
}
