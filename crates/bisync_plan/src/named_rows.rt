//! The rows of the names that losers get.

ghost use Rattle.std.specs.Prelude.{◌≡◌, IfOk};
ghost use Rattle.bisync_tree.specs.Rows.{PathBytes, keys, look, AreRising};
ghost use Rattle.bisync_filter.specs.Passing.{rules_pass};
ghost use Rattle.bisync_plan.specs.CellRows.{named_entry, named_look};

use crate::carries::carried_to;
use crate::merges::RowMap;
use bisync_filter::Rules;
use bisync_text::OutOfMemory;
use bisync_tree::{Entry, Given, Side, View, Window};
use std::alloc::Global;
use std::collections::BTreeMap;

/// What the final listing of a side says of a given name, where it passes.
fn entry_of(rules: &Rules, view: &View, given: &Given, side: Side, window: Window) -> Option<Entry>
    ensures { result ≡ named_entry (rules_pass rules.now) view.now side window given.now }
{
    if rules.passes(&given.name) {
        carried_to(view, given, side, window)
    } else {
        None
    }
}

/// The rows of the given names that pass, in the final listing of a side.
pub(crate) fn named_rows(
    alloc: Global,
    rules: &Rules,
    view: &View,
    given: &[Given],
    side: Side,
    window: Window,
) -> Result<RowMap, OutOfMemory>
    ensures looks { IfOk result (λ rows. (p : PathBytes) → look rows.entries p ≡ named_look (rules_pass rules.now) view.now side window given.now p) }
    ensures rising { IfOk result (λ rows. AreRising (keys rows.entries)) }
{
    let mut rows = BTreeMap::new(alloc);
    for name in given {
        if let Some(entry) = entry_of(rules, view, name, side, window) {
            rows.insert(name.name.copy(alloc)?, entry)?;
        }
    }
    let _ = rows.len();
    Ok(rows)
}
