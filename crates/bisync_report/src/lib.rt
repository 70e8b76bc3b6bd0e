//! What a run says: its end, with the exit status, the lines of its plan, and its last line.
#![tactic(auto)]

mod delta_lines;
mod end_parts;
mod ends;
mod last_lines;
pub mod laws;
mod names;
mod parts;
mod plan_texts;
mod statuses;
mod step_lines;
#[cfg(test)]
mod tests;
mod waiting;

pub use ends::{End, FolderCause, Need};
pub use last_lines::last_line;
pub use plan_texts::plan_lines;
pub use statuses::{falls, status};
