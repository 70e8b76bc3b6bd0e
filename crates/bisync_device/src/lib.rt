//! The outside, as traits: remotes with their folders, work folders, clocks and sinks. Each device
//! has a meaning of which its callers' contracts speak, and a count of faults that never falls.
#![tactic(auto)]

mod clocks;
mod edits;
mod faults;
mod folders;
pub mod laws;
mod remotes;
mod sinks;
#[cfg(test)]
mod tests;
mod works;

pub use clocks::Clock;
pub use edits::{Edits, Wakes, WorkWakes};
pub use faults::{Failed, ListFault};
pub use folders::Folders;
pub use remotes::Remote;
pub use sinks::Sink;
pub use works::{Work, WorkName};
