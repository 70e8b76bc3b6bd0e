//! What one run of the synchroniser does: definitions, which stand in `specs/`, and the laws that
//! hold of them. Each law is a function with an empty body, and its contract is the law.
#![tactic(auto)]

pub mod decisions;
pub mod given_names;
pub mod listings;
pub mod plans;
pub mod resyncs;
pub mod safety;
pub mod trees;
pub mod views;
