ghost use Rattle.std.specs.Prelude.{◌≡◌};

use crate::parts::Simple;
use std::marker::Model;

/// The alternatives between `{` and `}`.
#[derive(Drop)]
pub struct Choice {
    alternatives: Vec<Alternative>,
}

impl Model for Choice {
    ghost use Rattle.std.specs.Prelude.{List};
    ghost use Rattle.bisync_glob.specs.declared.parts.Simple.{Simple};

    ghost Value = { List (List Simple) };

    ghost view = { λ choice. choice.alternatives.items };
}

/// A sequence of parts between braces.
#[derive(Drop)]
pub struct Alternative {
    parts: Vec<Simple>,
}

impl Model for Alternative {
    ghost use Rattle.std.specs.Prelude.{List};
    ghost use Rattle.bisync_glob.specs.declared.parts.Simple.{Simple};

    ghost Value = { List Simple };

    ghost view = { λ alternative. alternative.parts.items };
}

impl Choice {
    pub fn new(alternatives: Vec<Alternative>) -> Choice
        ensures { result ≡ alternatives.items }
    {
        Choice { alternatives }
    }

    pub fn alternatives(&self) -> &[Alternative]
        ensures { result.now ≡ self.now }
    {
        &self.alternatives
    }
}

impl Alternative {
    pub fn new(parts: Vec<Simple>) -> Alternative
        ensures { result ≡ parts.items }
    {
        Alternative { parts }
    }

    pub fn parts(&self) -> &[Simple]
        ensures { result.now ≡ self.now }
    {
        &self.parts
    }
}
