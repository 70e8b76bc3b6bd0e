//! The real devices: folders of a disk as remotes and as a work folder, the system's clock, and
//! standard output. They tell nothing of what they hold: what a disk does is trusted. Proved is that
//! they are safe, and that a call answers `Failed` only where its device's count of faults rose.
#![tactic(auto)]

mod changes;
mod clocks;
mod faults;
mod folder_calls;
mod folders;
mod listings;
mod names;
mod openings;
mod remotes;
mod roots;
mod sinks;
#[cfg(test)]
mod tests;
mod times;
mod ways;
mod work_files;
mod work_names;
mod works;

pub use clocks::SystemClock;
pub use remotes::LocalRemote;
pub use sinks::StdoutSink;
pub use works::LocalWork;
