use bisync_tree::{Listing, Step};

/// What a run is to do, made before its first change.
#[derive(Drop)]
pub struct Plan {
    /// The steps in their order: first all deletes, then path by path.
    pub steps: Vec<Step>,
    /// What Path1's listing is after them.
    pub final1: Listing,
    /// What Path2's listing is after them.
    pub final2: Listing,
}
