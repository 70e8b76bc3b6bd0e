//! One run.
#![tactic(auto)]

mod agreement_laws;
mod buffers;
mod closed_runs;
mod closing;
mod entering;
mod held;
mod look_alone;
mod looking;
mod looks;
mod name_laws;
mod ordinary;
mod ordinary_changes;
mod ordinary_looks;
mod prepared;
mod refusal_laws;
mod refusals;
mod resync_changes;
mod resync_looks;
mod resync_writes;
mod resyncs;
mod runs;
mod starting;
mod steps;
#[cfg(test)]
mod tests;

pub use agreement_laws::agreeing_bases_stay_in_sync;
pub use look_alone::look;
pub use looks::Look;
pub use name_laws::good_names_stay_good;
pub use refusal_laws::{
    all_refusals_are_exclusive, resync_refusals_are_exclusive, run_refusals_are_exclusive,
};
pub use runs::run;
