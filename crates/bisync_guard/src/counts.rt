//! What became of the paths in the base of one side.

ghost use Rattle.std.specs.Prelude.{◌≡◌, ◌+◌, ◌<◌, ◌^◌, ◌&&◌, length, option_copied, true};
ghost use Rattle.bisync_guard.specs.Order.{deletes_over, changed_all};

use crate::Guard;
use bisync_tree::comparing::class;
use bisync_tree::{Class, Compare, Entry, GuardRule, Listing, Side};

/// Counts of the paths in the base of a side.
#[derive(Clone, Copy)]
pub(crate) struct Counts {
    /// All of them.
    pub(crate) base: u64,
    /// Those that are gone.
    pub(crate) gone: u64,
    /// Those that are still there.
    pub(crate) kept: u64,
    /// Whether each that is still there is fresh.
    pub(crate) all_fresh: bool,
}

impl Counts {
    ghost use Rattle.bisync_guard.specs.Tally.{number, is_gone_entry, is_kept_entry, is_fresh_if_kept};

    /// The counts of a base before any of its paths was looked at.
    pub(crate) fn new(base: &Listing) -> Counts
        ensures base { result.base ≡ length base.now }
        ensures gone { result.gone ≡ 0 }
        ensures kept { result.kept ≡ 0 }
        ensures all_fresh { result.all_fresh ≡ true }
        ensures fits { length base.now < 2 ^ 64 }
    {
        Counts {
            base: base.len() as u64,
            gone: 0,
            kept: 0,
            all_fresh: true,
        }
    }

    /// Counts a path, by its base entry and its entry now.
    pub(crate) fn add(&mut self, compare: &Compare, base: Option<&Entry>, now: Option<&Entry>)
        requires gone { self.old.gone
            + number (is_gone_entry compare.now (option_copied base) (option_copied now)) < 2 ^ 64 }
        requires kept { self.old.kept
            + number (is_kept_entry (option_copied base) (option_copied now)) < 2 ^ 64 }
        ensures base { self.new.base ≡ self.old.base }
        ensures gone { self.new.gone ≡ self.old.gone
            + number (is_gone_entry compare.now (option_copied base.entry) (option_copied now.entry)) }
        ensures kept { self.new.kept ≡ self.old.kept
            + number (is_kept_entry (option_copied base.entry) (option_copied now.entry)) }
        ensures all_fresh { self.new.all_fresh ≡ (self.old.all_fresh
            && is_fresh_if_kept compare.now (option_copied base.entry) (option_copied now.entry)) }
    {
        match class(compare, base, now) {
            Class::Gone => self.gone += 1,
            class => {
                if base.is_some() && now.is_some() {
                    self.kept += 1;
                    self.all_fresh = self.all_fresh && class == Class::Fresh;
                }
            }
        }
    }

    /// That more of the paths are gone than the limit allows.
    pub(crate) fn too_many_deletes(&self, guards: &GuardRule, side: Side) -> Option<Guard>
        ensures { result ≡ deletes_over guards.now side self.now.gone self.now.base }
    {
        let allowed = u128::from(guards.max_delete) * u128::from(self.base);
        if !guards.force && allowed < u128::from(self.gone) * 100 {
            Some(Guard::TooManyDeletes(side, self.gone, self.base))
        } else {
            None
        }
    }

    /// That some paths are still there, and that all of them are fresh.
    pub(crate) fn all_changed(&self, guards: &GuardRule, side: Side) -> Option<Guard>
        ensures { result ≡ changed_all guards.now side self.now.kept self.now.all_fresh }
    {
        if !guards.force && 1 <= self.kept && self.all_fresh {
            Some(Guard::AllChanged(side, self.kept))
        } else {
            None
        }
    }
}
