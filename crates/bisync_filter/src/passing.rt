//! Whether a path passes rules.

ghost use Rattle.std.specs.Prelude.{◌≡◌};
ghost use Rattle.bisync_filter.specs.Passing.{text_passes};

use crate::rule_lists::Rule;
use bisync_glob::{Room, Subject};

/// Whether the first rule whose pattern matches includes, or none matches.
pub fn is_passed(rules: &[Rule], subject: &Subject, room: &mut Room) -> bool
    ensures { result ≡ text_passes rules.now subject.now }
{
    for rule in rules {
        if rule.pattern.matches_in(subject, room) {
            return rule.includes;
        }
    }
    true
}
