ghost use Rattle.std.specs.Prelude.{◌≡◌};
ghost use Rattle.std.specs.List.{list_any};
ghost use Rattle.bisync_glob.specs.Matching.{item_names, class_takes};

use std::marker::Model;

/// What stands between `[` and `]`: the characters that it lists, or where it is negated, all others;
/// never `/`.
#[derive(Drop)]
pub struct CharClass {
    negated: bool,
    items: Vec<Item>,
}

impl Model for CharClass {
    ghost use Rattle.bisync_glob.specs.CharSet.{CharSet};

    ghost Value = { CharSet };

    ghost view = { λ class. record { negated = class.negated; items = class.items.items } };
}

/// What a class lists: one character, or all from the first to the last.
#[derive(Clone, Copy)]
pub enum Item {
    Single(char),
    Range(char, char),
}

impl CharClass {
    pub fn new(negated: bool, items: Vec<Item>) -> CharClass
        ensures negated { result.negated ≡ negated }
        ensures items { result.items ≡ items.items }
    {
        CharClass { negated, items }
    }

    /// Whether the class matches the character. None matches `/`.
    pub fn takes(&self, c: char) -> bool
        ensures { result ≡ class_takes self.now c }
    {
        c != '/' && names(&self.items, c) != self.negated
    }
}

impl Item {
    fn names(self, c: char) -> bool
        ensures { result ≡ item_names self c }
    {
        match self {
            Item::Single(single) => c == single,
            Item::Range(low, high) => low <= c && c <= high,
        }
    }
}

fn names(items: &[Item], c: char) -> bool
    ensures { result ≡ list_any (λ item. item_names item c) items.now }
{
    items.iter().any(|item| item.names(c))
}
