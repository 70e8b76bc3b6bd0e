ghost use Rattle.std.specs.Prelude.{◌≡◌, IfOk};
ghost use Rattle.bisync_filter.specs.Passing.{rules_pass};
ghost use Rattle.bisync_tree.specs.Rows.{passing};

use crate::path_filters::PathFilter;
use bisync_filter::Rules;
use bisync_text::OutOfMemory;
use bisync_tree::Listing;
use std::alloc::Global;

/// The passing part of a listing: the paths that pass, with their entries.
pub fn narrow(alloc: Global, listing: &Listing, rules: &Rules) -> Result<Listing, OutOfMemory>
    ensures { IfOk result (λ narrowed. narrowed ≡ passing (rules_pass rules.now) listing.now) }
{
    let mut filter = PathFilter::new(rules);
    let mut narrowed = Listing::new(alloc);
    for i in 0..listing.len() {
        let path = listing.path_at(i);
        if filter.passes(path) {
            narrowed.push(path.copy(alloc)?, *listing.entry_at(i))?;
        }
    }
    Ok(narrowed)
}
