//! A law of the names of a base. The function does nothing.

ghost use Rattle.std.specs.Prelude.{ℕ};
ghost use Rattle.bisync_tree.specs.declared.entries.Compare.{Compare};
ghost use Rattle.bisync_device.specs.WorkFolder.{WorkFolder};
ghost use Rattle.bisync_run.specs.OwnNames.{HasGoodNames, HoldsOwn};

/// Where each name of a base had a listing, or nothing, before a run, each has after it.
pub fn good_names_stay_good()
    ensures stay { (limit : ℕ) (compare : Compare) (f g : WorkFolder) → HoldsOwn limit compare f g →
        HasGoodNames limit f → HasGoodNames limit g }
{}
