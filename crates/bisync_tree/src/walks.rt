//! One walk over four listings in byte order.

ghost use Rattle.std.specs.Prelude.{◌≡◌, [], ◌∷◌, None, option_copied, MatchOption};
ghost use Rattle.bisync_tree.specs.Rows.{PathBytes, is_among, AreRising};
ghost use Rattle.bisync_tree.specs.Walk.{Listings, listings, listings_of, paths_of, has_path};
ghost use Rattle.bisync_tree.specs.Walk.{cells, seen, AllRising};
ghost use Rattle.bisync_tree.specs.Walk.{first_key, IsLeast, least_path, haves, entry_where, rest_where};

use crate::listings::Row;
use crate::{Entry, Listing, View};
use bisync_text::Path;
use std::cmp::Ordering;
use std::marker::Model;

/// What two base listings and two listings now have at one path.
#[derive(Clone, Copy)]
pub struct Cell<'a> {
    /// The path.
    pub path: &'a Path,
    /// Path1's entry in the base.
    pub base1: Option<&'a Entry>,
    /// Path2's entry in the base.
    pub base2: Option<&'a Entry>,
    /// Path1's entry now.
    pub now1: Option<&'a Entry>,
    /// Path2's entry now.
    pub now2: Option<&'a Entry>,
}

/// A walk over four listings, a cell for each path that one of them has.
#[derive(Drop)]
pub struct Walk<'a> {
    base1: &'a [Row],
    base2: &'a [Row],
    now1: &'a [Row],
    now2: &'a [Row],
}

/// The lesser path of a pair, and which of the two it is.
#[derive(Clone, Copy)]
struct Least<'a> {
    path: &'a Path,
    is_first: bool,
    is_second: bool,
}

impl<'a> Least<'a> {
    fn new(path: &'a Path, is_first: bool, is_second: bool) -> Least<'a>
        ensures { result ≡ record { path = path.entry; is_first = is_first; is_second = is_second } }
    {
        Least {
            path,
            is_first,
            is_second,
        }
    }
}

impl<'a> Model for Walk<'a> {
    ghost use Rattle.std.specs.Prelude.{List};
    ghost use Rattle.bisync_tree.specs.Walk.{CellValue, listings, cells, AllRising};

    ghost Value = { List CellValue };

    ghost view = { λ w. cells (listings w.base1.now w.base2.now w.now1.now w.now2.now) };

    ghost invariant = { λ w. AllRising (listings w.base1.now w.base2.now w.now1.now w.now2.now) };
}

impl<'a> Walk<'a> {
    /// A walk over the passing parts of a view.
    pub fn new(view: &'a View) -> Walk<'a>
        ensures cells { result ≡ cells (listings_of view.now) }
        ensures rising { AllRising (listings_of view.now) }
    {
        Walk::over(&view.base1, &view.base2, &view.now1, &view.now2)
    }

    /// A walk over any four listings.
    pub fn over(
        base1: &'a Listing,
        base2: &'a Listing,
        now1: &'a Listing,
        now2: &'a Listing,
    ) -> Walk<'a>
        ensures cells { result ≡ cells (listings base1.now base2.now now1.now now2.now) }
        ensures rising { AllRising (listings base1.now base2.now now1.now now2.now) }
    {
        Walk {
            base1: base1.rows(),
            base2: base2.rows(),
            now1: now1.rows(),
            now2: now2.rows(),
        }
    }

    /// The next cell, in byte order of the paths. None exactly where no cell is left.
    pub fn next(&mut self) -> Option<Cell<'a>>
        ensures cell { MatchOption result (self.old ≡ []) (λ cell. self.old ≡ seen cell ∷ self.new) }
        ensures end { result ≡ None → self.new ≡ [] }
    {
        let bases = lesser_of(head(self.base1), head(self.base2));
        let nows = lesser_of(head(self.now1), head(self.now2));
        match lesser_of(path_of(bases), path_of(nows)) {
            None => None,
            Some(least) => {
                let (is_base1, is_base2) = having(bases, least.is_first);
                let (is_now1, is_now2) = having(nows, least.is_second);
                let (base1, rest1) = take_head(self.base1, is_base1);
                let (base2, rest2) = take_head(self.base2, is_base2);
                let (now1, rest3) = take_head(self.now1, is_now1);
                let (now2, rest4) = take_head(self.now2, is_now2);
                self.base1 = rest1;
                self.base2 = rest2;
                self.now1 = rest3;
                self.now2 = rest4;
                Some(Cell {
                    path: least.path,
                    base1,
                    base2,
                    now1,
                    now2,
                })
            }
        }
    }
}

/// The cells of a walk are in byte order, one for each path that one of the listings has.
pub fn walk_paths_are_those_of_the_listings()
    ensures rising { (l : Listings) → AreRising (paths_of l) }
    ensures covering { (l : Listings) (p : PathBytes) → is_among p (paths_of l) ≡ has_path l p }
{}

/// The first path.
fn head<'a>(rows: &'a [Row]) -> Option<&'a Path>
    ensures { option_copied result ≡ first_key rows.now }
{
    match rows.first() {
        Some(row) => Some(&row.0),
        None => None,
    }
}

/// The lesser of two paths where both are there, and else the one that is. Equal paths are the commonest case,
/// and cost no look at their order.
fn lesser_of<'a>(a: Option<&'a Path>, b: Option<&'a Path>) -> Option<Least<'a>>
    ensures { IsLeast (option_copied a.entry) (option_copied b.entry) result }
{
    match (a, b) {
        (None, None) => None,
        (None, Some(path)) => Some(Least::new(path, false, true)),
        (Some(path), None) => Some(Least::new(path, true, false)),
        (Some(a), Some(b)) => {
            if *a == *b {
                Some(Least::new(a, true, true))
            } else {
                match b.cmp(a) {
                    Ordering::Less => Some(Least::new(b, false, true)),
                    _ => Some(Least::new(a, true, false)),
                }
            }
        }
    }
}

/// The path of a pair.
fn path_of<'a>(pair: Option<Least<'a>>) -> Option<&'a Path>
    ensures { option_copied result ≡ least_path pair.entry }
{
    match pair {
        None => None,
        Some(least) => Some(least.path),
    }
}

/// Which of a pair have the least path of all, where the pair's own is that path.
fn having(pair: Option<Least>, is_least: bool) -> (bool, bool)
    ensures { result ≡ haves pair.entry is_least }
{
    match pair {
        Some(least) if is_least => (least.is_first, least.is_second),
        _ => (false, false),
    }
}

/// The first entry where it is to be taken, and the rows after it.
fn take_head<'a>(rows: &'a [Row], is_taken: bool) -> (Option<&'a Entry>, &'a [Row])
    ensures entry { option_copied result.0 ≡ entry_where is_taken rows.now }
    ensures rest { result.1.now ≡ rest_where is_taken rows.now }
{
    match rows.split_first() {
        Some((row, rest)) if is_taken => (Some(&row.1), rest),
        _ => (None, rows),
    }
}
