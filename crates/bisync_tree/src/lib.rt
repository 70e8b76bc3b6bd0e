//! Trees of files, what a listing keeps of them, and when two entries are the same.
#![tactic(auto)]

mod classes;
pub mod comparing;
mod entries;
mod expiries;
mod files;
mod laws;
mod listed_names;
mod listings;
mod options;
mod sides;
mod steps;
#[cfg(test)]
mod tests;
mod views;
mod walks;
mod windows;

pub use classes::{Class, Rule};
pub use comparing::{same, same_is_an_equivalence};
pub use entries::{Compare, Entry};
pub use expiries::Until;
pub use files::{File, Item};
pub use laws::{
    agreement_is_an_equivalence, listing_of_is_the_listing, look_ups_decide_a_listing,
    passing_part_is_a_listing, paths_in_are_those_of_the_tree,
};
pub use listed_names::Names;
pub use listings::Listing;
pub use options::{ConflictRule, GuardRule, Limits, Loser, Prefer};
pub use sides::Side;
pub use steps::{Given, Step};
pub use views::View;
pub use walks::{Cell, Walk, walk_paths_are_those_of_the_listings};
pub use windows::{
    Window, brought_keeps_windows, brought_times_are_kept, brought_times_fit, coarser_is_not_finer,
};
