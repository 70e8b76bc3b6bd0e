use crate::{Listing, Names};

/// What a run knows of both sides before its first change.
#[derive(Drop)]
pub struct View {
    /// Path1's full base listing.
    pub prior1: Listing,
    /// Path2's full base listing.
    pub prior2: Listing,
    /// The passing part of Path1's base listing.
    pub base1: Listing,
    /// The passing part of Path2's base listing.
    pub base2: Listing,
    /// What passes on Path1 now.
    pub now1: Listing,
    /// What passes on Path2 now.
    pub now2: Listing,
    /// All paths on Path1 now.
    pub names1: Names,
    /// All paths on Path2 now.
    pub names2: Names,
}
