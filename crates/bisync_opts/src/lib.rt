//! The words of the commands `bisync` and `check`.
#![tactic(auto)]

mod arguments;
mod checks;
mod choices;
mod commands;
mod comparing;
mod conflicts;
mod conversions;
mod durations;
mod faults;
mod guards;
mod matches;
mod options;
mod places;
mod reading;
#[cfg(test)]
mod tests;
mod texts;
mod together;
mod words;

pub use checks::{CheckOpts, read_check};
pub use faults::{OptFault, OptName, UsageKind};
pub use options::{CheckSync, FolderMode, Opts};
pub use reading::read_options;
