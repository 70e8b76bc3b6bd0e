//! How a run begins: the work folder is attached, the filter rules are read, and the lock is taken.

ghost use Rattle.std.specs.Prelude.{◌≡◌, ◌≢◌, IsTrue, true, IfOk, IfErr, OnOk, None};
ghost use Rattle.bisync_device.specs.Work.{KeepsFolder};
ghost use Rattle.bisync_tree.specs.Ranges.{IsLongEnough};
ghost use Rattle.bisync_work.specs.Locks.{ChangesLock, IsFree, KeepsBlocking};
ghost use Rattle.bisync_run.specs.Counts.{counts, HasCauses};
ghost use Rattle.bisync_run.specs.EndKinds.{is_before_lock, is_unlocked};
ghost use Rattle.bisync_run.specs.Entering.{AtMoment, IsEntryEnd, IsHeldBack, IsRulesEnd, IsNoLock, session_of};
ghost use Rattle.bisync_run.specs.FilterRules.{AreRulesOf, KnowsRules};
ghost use Rattle.bisync_run.specs.LeftNames.{IsOwnLock, MayTakeLock};
ghost use Rattle.bisync_run.specs.LockNew.{KeepsLockNew};
ghost use Rattle.bisync_run.specs.ResyncEnds.{IsUnlockedEnd};

use bisync_device::{Clock, Work};
use bisync_filter::{Rules, digest_text};
use bisync_opts::Opts;
use bisync_report::End;
use bisync_text::Text;
use bisync_work::{RulesFault, Taken, read_rules, take_lock};
use md5::{Digest, Md5};
use std::alloc::Global;

/// What a run has once it holds the lock.
#[derive(Drop)]
pub struct Entered {
    /// The filter rules. Without a filters file every path passes.
    pub rules: Rules,
    /// The MD5 digest (RFC 1321) of the filters file, where one is used.
    pub digest: Option<[u8; 16]>,
    /// The moment at which the lock was written.
    pub locked_at: i64,
}

/// The name of a session: the MD5 digest (RFC 1321), in hexadecimal digits, of both roots with a
/// newline between them.
pub fn session_name(root1: &Text, root2: &Text) -> [u8; 32]
    ensures { result ≡ session_of root1.now root2.now }
{
    let mut hasher = Md5::new();
    hasher.update(root1.as_bytes());
    hasher.update(b"\n");
    hasher.update(root2.as_bytes());
    digest_text(&hasher.finalize())
}

/// Attaches the work folder, reads the rules and takes the lock.
pub fn enter<W: Work, C: Clock>(
    alloc: Global,
    opts: &Opts,
    work: &mut W,
    clock: &mut C,
) -> Result<Entered, End>
    requires { IsLongEnough opts.now.max_lock }
    ensures rules { KnowsRules W.tells opts.now.filters → IfOk result (λ entered. AreRulesOf opts.now.filters (W.state work.old).folder.filters entered.rules entered.digest) }
    ensures unfiltered { opts.now.filters ≡ None → IfOk result (λ entered. entered.digest ≡ None) }
    ensures free { IsTrue W.tells → OnOk result (AtMoment C.tells (C.moment clock.old) (λ now. IsFree now (W.state work.old).folder.lock)) }
    ensures entry { IsTrue W.tells → IfErr result (IsEntryEnd opts.now.filters (W.state work.old).folder C.tells (C.moment clock.old)) }
    ensures held_back { IsTrue C.tells → IfErr result (IsHeldBack (C.moment clock.old)) }
    ensures blocked { IsTrue W.tells → AtMoment C.tells (C.moment clock.old) (λ now. KeepsBlocking now (W.state work.old).folder (W.state work.new).folder) }
    ensures only { IfErr result (λ end. is_before_lock end ≡ true) }
    ensures kind { IfErr result (IsUnlockedEnd opts.now.filters) }
    ensures kept { IsTrue W.tells → IfErr result (λ end. end ≢ End.WorkFault → (W.state work.new).folder ≡ (W.state work.old).folder) }
    ensures steady { IfErr result (λ end. is_unlocked end ≡ true → (W.state work.new).faults ≡ (W.state work.old).faults) }
    ensures others { IsTrue W.tells → ChangesLock (W.state work.old).folder (W.state work.new).folder }
    ensures own_lock { IsTrue W.tells → OnOk result (IsOwnLock opts.now.max_lock C.tells (C.moment clock.old) (W.state work.new).folder.lock) }
    ensures makes_lock { IsTrue W.tells → IfErr result (λ end. MayTakeLock opts.now C.tells (C.moment clock.old) end (W.state work.old).folder (W.state work.new).folder) }
    ensures lock_new { IsTrue W.tells → OnOk result (KeepsLockNew (W.state work.old).folder (W.state work.new).folder) }
    ensures moment { IsTrue C.tells → C.moment clock.new ≡ C.moment clock.old }
    ensures left { (W.state work.old).left ≡ None → (W.state work.new).left ≡ None }
    ensures causes { HasCauses (counts 0 0 (W.state work.old).faults 0) (counts 0 0 (W.state work.new).faults 0) result }
{
    let session = session_name(&opts.root1, &opts.root2);
    if work
        .attach(&opts.workdir, &session, opts.filters.as_ref())
        .is_err()
    {
        return Err(End::WorkFault);
    }
    let (rules, digest) = match rules_of(alloc, opts, work) {
        Ok(read) => read,
        Err(end) => return Err(end),
    };
    let now = clock.now();
    match take_lock(work, now, opts.max_lock) {
        Ok(Taken::Got) => Ok(Entered {
            rules,
            digest,
            locked_at: now,
        }),
        Ok(Taken::Held(until)) => Err(End::Locked(until)),
        Err(_) => Err(End::WorkFault),
    }
}

/// The filter rules, and the digest of their file, where one is used.
fn rules_of<W: Work>(
    alloc: Global,
    opts: &Opts,
    work: &mut W,
) -> Result<(Rules, Option<[u8; 16]>), End>
    ensures rules { KnowsRules W.tells opts.now.filters → IfOk result (λ read. AreRulesOf opts.now.filters (W.state work.old).folder.filters read.0 read.1) }
    ensures unfiltered { opts.now.filters ≡ None → IfOk result (λ read. read.1 ≡ None) }
    ensures refusal { IsTrue W.tells → IfErr result (IsRulesEnd opts.now.filters (W.state work.old).folder.filters) }
    ensures only { IfErr result (λ end. is_before_lock end ≡ true) }
    ensures kind { IfErr result (IsUnlockedEnd opts.now.filters) }
    ensures steady { IfErr result (λ end. is_unlocked end ≡ true → (W.state work.new).faults ≡ (W.state work.old).faults) }
    ensures not_locked { IfErr result IsNoLock }
    ensures folder { KeepsFolder W.tells (W.state work.old) (W.state work.new) }
    ensures left { (W.state work.old).left ≡ None → (W.state work.new).left ≡ None }
    ensures causes { HasCauses (counts 0 0 (W.state work.old).faults 0) (counts 0 0 (W.state work.new).faults 0) result }
{
    if opts.filters.is_none() {
        return Ok((Rules::all(alloc), None));
    }
    match read_rules(alloc, work) {
        Ok(read) => {
            let digest = read.1;
            Ok((read.0, Some(digest)))
        }
        Err(RulesFault::Failed) => Err(End::WorkFault),
        Err(RulesFault::Absent) => Err(End::NoFilters),
        Err(RulesFault::BadRule(line)) => Err(End::BadRule(line)),
        Err(RulesFault::OutOfMemory) => Err(End::OutOfMemory),
    }
}
