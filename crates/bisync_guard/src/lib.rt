//! Guards: what stops a run before its first change, so that a broken disk, an unmounted folder or
//! a wrong filter doesn't look like a wish to delete. After rclone's manual page "bisync"; the exact
//! conditions and their order are this project's own.
#![tactic(auto)]

mod access;
mod counts;
mod decisions;
mod guards;
mod laws;
mod tallies;
#[cfg(test)]
mod tests;

pub use decisions::decide;
pub use guards::Guard;
pub use laws::{
    check_files_have_the_name, guards_at_one_place_are_equal, no_answer_where_no_guard_holds,
    nothing_before_the_answer_holds, the_answer_holds, the_first_guard_that_holds_is_the_answer,
};
