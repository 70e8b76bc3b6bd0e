//! Lists of rules.

ghost use Rattle.std.specs.Prelude.{◌≡◌, ◌↔◌, [], IsTrue, IfOk, IfErr, OnOk, chars};
ghost use Rattle.bisync_filter.specs.Passing.{Passes, rules_pass, text_passes};
ghost use Rattle.bisync_filter.specs.Spelling.{SpellsRules, IsFaultOf, AreOnlyRules, IsOnlyFaultOf, rules_after};

use crate::RuleFault;
use crate::cuts::cut_line;
use crate::lines::{Line, read_line};
use crate::passing::is_passed;
use bisync_glob::{Pattern, Room, Subject};
use bisync_text::{OutOfMemory, Path};
use std::alloc::Global;
use std::marker::Model;

/// The most bytes of a filters file.
const MAX_LEN: usize = 1_048_576;

/// A pattern, and whether it includes the paths that it matches or excludes them.
#[derive(Drop)]
pub struct Rule {
    pub includes: bool,
    pub pattern: Pattern,
}

/// The rules of a filters file, in order. The first rule whose pattern matches a path decides whether
/// it passes, and a path that none matches passes.
#[derive(Drop)]
pub struct Rules {
    rules: Vec<Rule>,
}

impl Model for Rules {
    ghost use Rattle.std.specs.Prelude.{List};
    ghost use Rattle.bisync_filter.specs.declared.rule_lists.Rule.{Rule};

    ghost Value = { List Rule };

    ghost view = { λ rules. rules.rules.items };
}

impl Rules {
    /// No rules, by which every path passes. Takes no memory.
    pub fn all(alloc: Global) -> Rules
        ensures { result ≡ [] }
    {
        Rules {
            rules: Vec::new(alloc),
        }
    }

    /// The rules of the text of a filters file.
    ///
    /// From each line one final carriage return is removed, and then spaces and tabs at both ends. An
    /// empty line and one that begins with `#` or `;` are skipped, `!` clears the rules before it, `+ `
    /// and a pattern include, and `- ` and a pattern exclude. Every other line is no rule, and neither
    /// is one that holds the first byte past 1,048,576.
    ///
    /// # Errors
    ///
    /// `BadLine` exactly with the first line that is no rule, counted from 1. `OutOfMemory` where
    /// memory was refused.
    pub fn read(alloc: Global, text: &[u8]) -> Result<Rules, RuleFault>
        ensures rules { IfOk result (λ rules. SpellsRules rules text.now) }
        ensures fault { IfErr result (λ fault. IsFaultOf fault text.now) }

        // `BadLine` comes exactly where a line is bad, and else the text spells these rules alone.
        ensures only_rules { IfOk result (λ rules. AreOnlyRules rules text.now) }
        ensures only_fault { IfErr result (λ fault. IsOnlyFaultOf fault text.now) }
    {
        match read_rules(alloc, text) {
            Ok(rules) => Ok(Rules { rules }),
            Err(fault) => Err(fault),
        }
    }

    /// Whether there are no rules, by which every path passes.
    pub fn is_empty(&self) -> bool
        ensures { IsTrue result ↔ (self.now ≡ []) }
    {
        self.rules.is_empty()
    }

    /// Whether a path passes. Takes no memory.
    pub fn passes(&self, path: &Path) -> bool
        ensures passes { IsTrue result ↔ Passes self.now (chars path.now) }
        ensures test { result ≡ rules_pass self.now path.now }
    {
        let mut subject = Subject::new();
        subject.set(path);
        self.passes_in(&subject, &mut Room::new())
    }

    /// Whether the path passes that the subject was set to. Takes no memory, and serves where many paths
    /// are tested with one room.
    pub fn passes_in(&self, subject: &Subject, room: &mut Room) -> bool
        ensures passes { IsTrue result ↔ Passes self.now subject.now }
        ensures test { result ≡ text_passes self.now subject.now }
    {
        is_passed(&self.rules, subject, room)
    }
}

fn read_rules(alloc: Global, text: &[u8]) -> Result<Vec<Rule>, RuleFault>
    ensures ok { IfOk result (λ rules. SpellsRules rules.items text.now) }
    ensures err { IfErr result (λ fault. IsFaultOf fault text.now) }
{
    let mut rules = Vec::new(alloc);
    let mut rest = text;
    let mut left = MAX_LEN;
    let mut number = 0;
    'lines: loop {
        number += 1;
        let cut = cut_line(rest);
        if left < cut.size {
            return Err(RuleFault::BadLine(number));
        }
        match read_line(alloc, cut.line)? {
            Some(said) => take_line(&mut rules, said)?,
            None => return Err(RuleFault::BadLine(number)),
        }
        left -= cut.size;
        match cut.more {
            Some(more) => rest = more,
            None => return Ok(rules),
        }
    }
}

/// What a line says is done.
fn take_line(rules: &mut Vec<Rule>, said: Line) -> Result<(), OutOfMemory>
    ensures { OnOk result (rules.new.items ≡ rules_after said rules.old.items) }
{
    match said {
        Line::Skipped => {}
        Line::Clears => rules.clear(),
        Line::Adds(rule) => rules.push(rule)?,
    }
    Ok(())
}
