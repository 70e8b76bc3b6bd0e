//! One side as a run sees it: the names that its remote lists, and the listing of what passes.
#![tactic(auto)]

mod counts;
mod faults;
mod file_reading;
mod listed_rows;
mod narrowing;
mod observing;
mod path_filters;
mod seeing;
mod tallies;
#[cfg(test)]
mod tests;

pub use faults::ObserveFault;
pub use narrowing::narrow;
pub use observing::{Seen, observe};
