//! The work folder of a session: its base, the moves that change it, the lock and the filters file.
#![tactic(auto)]

mod base_laws;
#[cfg(test)]
mod base_tests;
mod bases;
mod digest_files;
mod found;
mod fronts;
mod kept_texts;
mod listing_reads;
mod lock_laws;
#[cfg(test)]
mod lock_tests;
mod lock_texts;
mod locks;
mod moves;
mod new_listings;
mod rules_files;
mod stamps;

pub use base_laws::{
    fallen_has_no_base, image_keeps_the_base, moves_follow_one_another, no_base_stays,
    one_bad_name, one_base, one_new_stamp, same_listings_same_base, written_is_ready,
};
pub use bases::Pair;
pub use bisync_tree::Until;
pub use digest_files::{store_digest, stored_digest};
pub use found::{Found, WorkFault, find_base};
pub use lock_laws::{
    a_lock_blocks_or_is_free, lock_texts_are_read_back, locks_and_digests_leave_a_folder_settled,
};
pub use locks::{Taken, free_lock, renew, take_lock};
pub use moves::{fall, set_back, switch};
pub use new_listings::write_new;
pub use rules_files::{RulesFault, read_rules};
