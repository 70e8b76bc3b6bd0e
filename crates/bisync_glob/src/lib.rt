//! Patterns of filter rules: how a pattern is read, and which paths it matches.
//!
//! The grammar is this project's own, after rclone's manual page "Filtering".
#![tactic(auto)]

mod braces;
mod builders;
mod choices;
mod class_reader;
mod classes;
mod decoding;
mod faults;
mod parts;
mod patterns;
mod places;
mod rooms;
mod subjects;
mod tables;
mod tokens;

pub use faults::{FaultKind, PatternFault};
pub use patterns::Pattern;
pub use rooms::Room;
pub use subjects::Subject;

#[cfg(test)]
mod tests;
