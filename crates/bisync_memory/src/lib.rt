//! Devices in memory, whose calls fail where a list says so and after a stop.
#![tactic(auto)]

mod clocks;
mod edits;
mod files;
mod folder_calls;
mod folder_maps;
mod folder_names;
mod loose_modes;
mod mem_remotes;
mod readings;
mod remote_calls;
#[cfg(test)]
mod remote_tests;
mod schedules;
mod sinks;
mod stores;
mod work_files;
mod works;

pub use clocks::{FixedClock, MemClock};
pub use loose_modes::LooseMode;
pub use mem_remotes::MemRemote;
pub use sinks::MemSink;
pub use works::MemWork;
