//! The plan of a run: its steps, and what both listings are to be after it. It is made before the
//! first change, from what is listed.
#![tactic(auto)]

mod carries;
mod cells;
mod faults;
mod finals;
pub mod laws;
#[cfg(test)]
mod listed_views;
mod merges;
mod moves;
mod named_rows;
pub mod planning;
mod plans;
mod resyncs;
mod steps;
mod tested;
#[cfg(test)]
mod tests;
#[cfg(test)]
mod told_plans;

pub use faults::PlanFault;
pub use plans::Plan;
pub use tested::compared;
