//! A process's own locks on one file.

ghost use Rattle.std.specs.Prelude.{◌≡◌, ◌≤◌, ℕ, List, [], ◌∷◌, ◌++◌, length, IfOk, OnOk, OnErr};
ghost use Rattle.record_locks.specs.Own.{IsMaximal, IsOnly, is_followed_by, joined, kind_at, part_before, part_behind, relocked, replaced, unlocked};

use crate::state::{ByteRange, LockKind, OwnLock};
use kernel_values::OutOfMemory;
use std::alloc::Global;
use std::marker::Model;

/// The process's locks on one file, ascending, each a maximal range of one kind. A contract sees the list of them.
#[derive(Debug, Drop)]
pub struct LockList {
    locks: Vec<OwnLock>,
}

impl Model for LockList {
    ghost use Rattle.std.specs.Prelude.{List};
    ghost use Rattle.record_locks.specs.declared.state.OwnLock.{OwnLock};
    ghost use Rattle.record_locks.specs.Own.{IsMaximal};

    ghost Value = { List OwnLock };

    ghost view = { λ l. l.locks.items };

    ghost invariant = { λ l. IsMaximal l.locks.items };
}

/// Appends the part of a lock before a byte.
fn push_before(out: &mut Vec<OwnLock>, lock: OwnLock, first: u64) -> Result<(), OutOfMemory>
    ensures { OnOk result (out.new.items ≡ out.old.items ++ part_before lock first) }
{
    if lock.first < first {
        let last = lock.last.min(first - 1);
        out.push(OwnLock { last, ..lock })?;
    }
    Ok(())
}

/// Appends the part of a lock behind a byte.
fn push_behind(out: &mut Vec<OwnLock>, lock: OwnLock, last: u64) -> Result<(), OutOfMemory>
    ensures { OnOk result (out.new.items ≡ out.old.items ++ part_behind lock last) }
{
    if last < lock.last {
        let first = lock.first.max(last + 1);
        out.push(OwnLock { first, ..lock })?;
    }
    Ok(())
}

/// The locks without those on some bytes.
#[tactic(auto, unfolding(crate::specs::Own::unlocked))]
fn unlocked(alloc: Global, locks: &[OwnLock], range: ByteRange) -> Result<Vec<OwnLock>, OutOfMemory>
    ensures { IfOk result (λ out. out.items ≡ unlocked locks.now range) }
{
    let mut out = Vec::new(alloc);
    let mut rest = locks;
    while let [lock, others @ ..] = rest {
        push_before(&mut out, *lock, range.first)?;
        push_behind(&mut out, *lock, range.last)?;
        rest = others;
    }
    Ok(out)
}

/// Whether a lock of the same kind begins right behind another.
fn is_followed_by(lock: OwnLock, next: OwnLock) -> bool
    ensures { result ≡ is_followed_by lock next }
{
    lock.kind == next.kind && lock.last < next.first && next.first - lock.last == 1
}

/// A lock among ascending others that have none of its bytes, in one with those of its kind that it touches.
#[tactic(auto, unfolding(crate::specs::Own::joined))]
fn joined(alloc: Global, lock: OwnLock, locks: &[OwnLock]) -> Result<Vec<OwnLock>, OutOfMemory>
    ensures { IfOk result (λ out. out.items ≡ joined lock locks.now) }
{
    let mut out = Vec::new(alloc);
    let mut new = lock;
    let mut rest = locks;
    while let [next, others @ ..] = rest {
        if is_followed_by(*next, new) {
            new.first = next.first;
        } else if is_followed_by(new, *next) {
            new.last = next.last;
            rest = others;
            break;
        } else if next.first < new.first {
            out.push(*next)?;
        } else {
            break;
        }
        rest = others;
    }
    out.push(new)?;
    out.extend_from_slice(rest)?;
    Ok(out)
}

/// The locks where some bytes have another kind, or none.
#[tactic(auto, unfolding(crate::specs::Own::relocked))]
fn relocked(
    alloc: Global,
    locks: &[OwnLock],
    wanted: Option<LockKind>,
    range: ByteRange,
) -> Result<Vec<OwnLock>, OutOfMemory>
    ensures { IfOk result (λ out. out.items ≡ relocked locks.now wanted range) }
{
    let rest = unlocked(alloc, locks, range)?;
    match wanted {
        None => Ok(rest),
        Some(kind) => {
            let lock = OwnLock {
                kind,
                first: range.first,
                last: range.last,
            };
            joined(alloc, lock, rest.as_slice())
        }
    }
}

impl LockList {
    /// No locks.
    #[tactic(auto, using(crate::proofs::OwnLocks::none_maximal))]
    pub fn new(alloc: Global) -> LockList
        ensures { result ≡ [] }
    {
        LockList {
            locks: Vec::new(alloc),
        }
    }

    /// The locks, ascending.
    pub fn as_slice(&self) -> &[OwnLock]
        ensures list { result.now ≡ self.now }
        ensures maximal { IsMaximal self.now }
    {
        &self.locks
    }

    /// Gives bytes another kind, or none. After want of memory the locks are as before.
    pub fn set(
        &mut self,
        alloc: Global,
        wanted: Option<LockKind>,
        range: ByteRange,
    ) -> Result<(), OutOfMemory>
        requires { range.first ≤ range.last }
        ensures list { OnOk result (self.new ≡ relocked self.old wanted range) }
        ensures bytes { OnOk result ((byte : ℕ) → kind_at self.new byte ≡ replaced wanted range byte (kind_at self.old byte)) }
        ensures maximal { IsMaximal self.new }
        ensures only { IsOnly self.new }
        ensures unchanged { OnErr result (self.new ≡ self.old) }
    {
        self.locks = relocked(alloc, &self.locks, wanted, range)?;
        Ok(())
    }
}
