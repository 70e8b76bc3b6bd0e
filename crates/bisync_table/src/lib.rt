//! The case table: what a run does with a path, by what became of it on each side, and how a path
//! changed. After "unusual sync checks" of rclone's manual page "bisync"; the nine cells are this
//! project's own.
#![tactic(auto)]

pub mod changes;
mod deltas;
pub mod laws;
pub mod table;
#[cfg(test)]
mod tests;

pub use bisync_tree::{Cell, Class, Rule, View, Walk, comparing};
pub use deltas::Delta;
