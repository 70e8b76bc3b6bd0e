//! The names that are taken.

ghost use Rattle.std.specs.Prelude.{◌≡◌, ◌<◌, ◌^◌, ◌++◌, length, OnOk};
ghost use Rattle.bisync_tree.specs.Rows.{keys, is_among};
ghost use Rattle.bisync_conflict.specs.Naming.{view_names, IsAdded};

use crate::sorted_paths::{SortedPaths, holds};
use bisync_text::OutOfMemory;
use bisync_tree::View;
use indexmap::IndexSet;
use std::alloc::Global;
use std::marker::Model;

/// The names that a view has, and those given so far. The former are found by halves where they
/// stand, and only the latter are kept here.
#[derive(Drop)]
pub(crate) struct Taken<'a> {
    view: &'a View,
    given: IndexSet<Vec<u8>>,
}

impl<'a> Model for Taken<'a> {
    ghost use Rattle.std.specs.Prelude.{List, ◌++◌, map};
    ghost use Rattle.bisync_tree.specs.Rows.{PathBytes};
    ghost use Rattle.bisync_conflict.specs.Naming.{view_names};

    ghost Value = { List PathBytes };

    ghost view = { λ t. map (λ name. name.items) t.given.keys ++ view_names t.view.now };
}

impl<'a> Taken<'a> {
    /// The names of a view. Takes no memory.
    pub(crate) fn new(alloc: Global, view: &'a View) -> Taken<'a>
        ensures { result ≡ view_names view.now }
    {
        Taken {
            view,
            given: IndexSet::new(alloc),
        }
    }

    /// How many there are, one that stands in several lists counted once for each.
    pub(crate) fn count(&self) -> u128
        ensures count { result ≡ length self.now }
        ensures small { result < 2 ^ 67 }
    {
        self.given.len() as u128
            + self.view.names1.count() as u128
            + self.view.names2.count() as u128
            + self.view.prior1.count() as u128
            + self.view.prior2.count() as u128
    }

    /// Whether a name is taken.
    pub(crate) fn holds(&self, name: &[u8]) -> bool
        ensures { result ≡ is_among name.now self.now }
    {
        self.given.contains(name) || has_name(self.view, name)
    }

    /// Adds a given name.
    pub(crate) fn add(&mut self, name: Vec<u8>) -> Result<(), OutOfMemory>
        ensures { OnOk result (IsAdded name.items self.old self.new) }
    {
        self.given.insert(name)?;
        Ok(())
    }
}

/// Whether a tree or a full base listing has a name.
fn has_name(view: &View, name: &[u8]) -> bool
    ensures { result ≡ is_among name.now (view_names view.now) }
{
    is_there(view, name) || was_there(view, name)
}

/// Whether a tree has a name.
fn is_there(view: &View, name: &[u8]) -> bool
    ensures { result ≡ is_among name.now (view.now.names1 ++ view.now.names2) }
{
    holds(&view.names1, name) || holds(&view.names2, name)
}

/// Whether a full base listing has a name.
fn was_there(view: &View, name: &[u8]) -> bool
    ensures { result ≡ is_among name.now (keys view.now.prior1 ++ keys view.now.prior2) }
{
    holds(&view.prior1, name) || holds(&view.prior2, name)
}
