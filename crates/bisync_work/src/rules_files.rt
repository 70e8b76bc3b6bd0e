//! The filters file.

ghost use Rattle.std.specs.Prelude.{◌≡◌, None, IsTrue, IfOk, IfErr};
ghost use Rattle.bisync_device.specs.Faults.{HasCause};
ghost use Rattle.bisync_device.specs.Work.{KeepsFolder};
ghost use Rattle.bisync_work.specs.RulesFiles.{HasRules, IsRulesFault, rules_failed, BeginsWith};

use bisync_device::{Failed, Work, WorkName};
use bisync_filter::{RuleFault, Rules};
use md5::{Digest, Md5};
use std::alloc::{AllocError, Global};
use thiserror::Error;

/// The most bytes of a filters file.
const MAX_LEN: usize = 1_048_576;

/// Why the filters file gave no rules.
#[derive(Clone, Copy, Debug, PartialEq, Eq, Error)]
pub enum RulesFault {
    /// A call of the device failed.
    #[error("Failed")]
    Failed,
    /// The file isn't there.
    #[error("Absent")]
    Absent,
    /// The number of the first line that is no rule, counted from 1.
    #[error("BadRule")]
    BadRule(u64),
    #[error("OutOfMemory")]
    OutOfMemory,
}

impl From<Failed> for RulesFault {
    ghost use Rattle.bisync_work.specs.declared.rules_files.RulesFault.TheVariants.{Failed};

    ghost from_gives = { λ _ fault. fault ≡ Failed };

    fn from(_: Failed) -> Self {
        RulesFault::Failed
    }
}

impl From<AllocError> for RulesFault {
    ghost use Rattle.bisync_work.specs.declared.rules_files.RulesFault.TheVariants.{OutOfMemory};

    ghost from_gives = { λ _ fault. fault ≡ OutOfMemory };

    fn from(_: AllocError) -> Self {
        RulesFault::OutOfMemory
    }
}

/// The rules of the filters file, and its MD5 (RFC 1321). Of a file of more than 1,048,576 bytes one
/// byte past them is read.
///
/// # Errors
///
/// `Absent` exactly where the file isn't there. `BadRule` exactly with the first line that is no rule
/// or holds the first byte past 1,048,576, counted from 1. `OutOfMemory` where memory was refused, and
/// `Failed` only where a call of the device failed.
pub fn read_rules<W: Work>(alloc: Global, work: &mut W) -> Result<(Rules, [u8; 16]), RulesFault>
    ensures rules { IsTrue W.tells → IfOk result (λ read. HasRules read.0 read.1 (W.state work.old).folder.filters) }
    ensures fault { IsTrue W.tells → IfErr result (λ fault. IsRulesFault fault (W.state work.old).folder.filters) }
    ensures folder { KeepsFolder W.tells (W.state work.old) (W.state work.new) }
    ensures left { (W.state work.old).left ≡ None → (W.state work.new).left ≡ None }
    ensures cause { HasCause (rules_failed result) (W.state work.old).faults (W.state work.new).faults }
{
    let text = read_text(alloc, work)?;
    match Rules::read(alloc, &text) {
        Ok(rules) => Ok((rules, Md5::digest(&text))),
        Err(RuleFault::BadLine(line)) => Err(RulesFault::BadRule(line)),
        Err(RuleFault::OutOfMemory) => Err(RulesFault::OutOfMemory),
    }
}

/// The text of the filters file, at most one byte more than it may have.
fn read_text<W: Work>(alloc: Global, work: &mut W) -> Result<Vec<u8>, RulesFault>
    ensures text { IsTrue W.tells → IfOk result (λ text. BeginsWith text.items (W.state work.old).folder.filters) }
    ensures fault { IsTrue W.tells → IfErr result (λ fault. IsRulesFault fault (W.state work.old).folder.filters) }
    ensures folder { KeepsFolder W.tells (W.state work.old) (W.state work.new) }
    ensures left { (W.state work.old).left ≡ None → (W.state work.new).left ≡ None }
    ensures cause { HasCause (rules_failed result) (W.state work.old).faults (W.state work.new).faults }
{
    if !work.open(WorkName::Filters)? {
        return Err(RulesFault::Absent);
    }
    let mut text = Vec::new(alloc);
    let mut piece = [0; 4096];
    while text.len() <= MAX_LEN {
        let room = (MAX_LEN + 1 - text.len()).min(4096);
        let count = work.read(&mut piece[..room])?;
        if count == 0 {
            break;
        }
        text.extend_from_slice(&piece[..count])?;
    }
    Ok(text)
}
