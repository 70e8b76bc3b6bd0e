use bisync_plan::Plan;
use bisync_tree::{Compare, View};

/// What an ordinary run saw and planned.
#[derive(Drop)]
pub struct Look {
    /// The base, its passing part, and what both sides have.
    pub view: View,
    /// What is compared, with the window of the run.
    pub compare: Compare,
    pub plan: Plan,
}
