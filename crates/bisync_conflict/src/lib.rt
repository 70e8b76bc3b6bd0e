//! Conflicts: which file wins, and the names of the files that lose. After `--conflict-resolve`,
//! `--conflict-loser` and `--conflict-suffix` of rclone's manual page "bisync"; ties, the names and
//! their order are this project's own.
#![tactic(auto)]

mod candidates;
mod faults;
pub mod laws;
pub mod losers;
mod names;
mod sorted_paths;
mod taken;
#[cfg(test)]
mod tests;
pub mod winners;

pub use bisync_tree::Given;
pub use faults::NameFault;
pub use names::give_names;
pub use winners::winner;
