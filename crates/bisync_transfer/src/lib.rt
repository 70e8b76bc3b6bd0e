//! One step of a run, done over two remotes.
#![tactic(auto)]

mod copies;
pub mod laws;
mod steps;
mod tallies;
#[cfg(test)]
mod tests;

pub use steps::{StepFault, perform};
