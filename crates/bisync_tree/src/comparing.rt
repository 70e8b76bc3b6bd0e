//! When two entries are the same, and the class of a path.

ghost use Rattle.std.specs.Prelude.{◌≡◌, true, Option, option_copied};
ghost use Rattle.bisync_tree.specs.Same.{same as are_same, class as class_of};

use crate::{Class, Compare, Entry};

/// Whether two entries are both absent, or both there and equal in each compared field. Times
/// are equal if they lie in the same window.
pub fn same(compare: &Compare, a: Option<&Entry>, b: Option<&Entry>) -> bool
    ensures { result ≡ are_same compare.now (option_copied a.entry) (option_copied b.entry) }
{
    match (a, b) {
        (None, None) => true,
        (Some(a), Some(b)) => {
            (!compare.size || a.size == b.size)
                && (!compare.time || compare.window.number(a.time) == compare.window.number(b.time))
                && (!compare.hash || a.hash == b.hash)
        }
        _ => false,
    }
}

/// What became of a path on a side, from its base entry and its entry now.
pub fn class(compare: &Compare, base: Option<&Entry>, now: Option<&Entry>) -> Class
    ensures { result ≡ class_of compare.now (option_copied base.entry) (option_copied now.entry) }
{
    if same(compare, base, now) {
        Class::Quiet
    } else if now.is_some() {
        Class::Fresh
    } else {
        Class::Gone
    }
}

/// To be the same is an equivalence of entries that are there or absent.
pub fn same_is_an_equivalence()
    ensures reflexive { (c : Compare) (e : Option Entry) → are_same c e e ≡ true }
    ensures symmetric { (c : Compare) (e f : Option Entry) → are_same c e f ≡ true → are_same c f e ≡ true }
    ensures transitive { (c : Compare) (e f g : Option Entry)
        → are_same c e f ≡ true → are_same c f g ≡ true → are_same c e g ≡ true }
{}
