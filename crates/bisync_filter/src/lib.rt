//! Filter rules, and the text of the digest of a filters file.
//!
//! The form of the rules is this project's own, after rclone's manual page "Filtering".
#![tactic(auto)]

mod cuts;
mod digests;
mod faults;
mod laws;
mod lines;
mod passing;
mod rule_lists;
#[cfg(test)]
mod tests;
mod trims;

pub use digests::{digest_text, read_digest};
pub use faults::RuleFault;
pub use laws::{first_match_decides, rules_pass_is_passing};
pub use rule_lists::Rules;
