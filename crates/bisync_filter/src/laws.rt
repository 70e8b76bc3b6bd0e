//! Laws for the crates above.

ghost use Rattle.std.specs.Prelude.{◌≡◌, ◌↔◌, IsTrue, true, List, ℕ, chars};
ghost use Rattle.bisync_filter.specs.declared.rule_lists.Rule.{Rule};
ghost use Rattle.bisync_filter.specs.Passing.{IsFirstMatch, NoneMatches, Passes, rules_pass};

/// A law: the test of rules says which paths pass.
pub fn rules_pass_is_passing()
    ensures { (rules : List Rule) (path : List ℕ) → IsTrue (rules_pass rules path) ↔ Passes rules (chars path) }
{}

/// The laws of the first rule whose pattern matches: it decides, and a text that none matches passes.
pub fn first_match_decides()
    ensures first { (rule : Rule) (rules : List Rule) (text : List ℕ) → IsFirstMatch rule rules text → Passes rules text ↔ (rule.includes ≡ true) }
    ensures none { (rules : List Rule) (text : List ℕ) → NoneMatches rules text → Passes rules text }
{}
