//! The locks that the process has, by the inode number of their file.

ghost use Rattle.std.specs.Prelude.{◌≡◌, ℕ, ◌≤◌, [], List, OnOk, option_copied};
ghost use Rattle.record_locks.specs.declared.state.OwnLock.{OwnLock};
ghost use Rattle.number_maps.specs.NumberMap.{at, removed};
ghost use Rattle.file_tree.specs.OwnLocks.{locked};

use kernel_values::OutOfMemory;
use record_locks::{ByteRange, LockKind, LockList};
use std::alloc::Global;
use std::collections::BTreeMap;
use std::marker::Model;

/// The locks that the process has, by the inode number of their file.
#[derive(Debug, Drop)]
pub struct OwnLocks {
    map: BTreeMap<u64, LockList>,
}

impl Model for OwnLocks {
    ghost use Rattle.std.specs.Prelude.{ℕ, List};
    ghost use Rattle.record_locks.specs.declared.state.OwnLock.{OwnLock};

    ghost Value = { List (ℕ × List OwnLock) };

    ghost view = { λ l. l.map.entries };
}

impl OwnLocks {
    /// No locks.
    pub(crate) fn new(alloc: Global) -> OwnLocks
        ensures { result ≡ [] }
    {
        OwnLocks {
            map: BTreeMap::new(alloc),
        }
    }

    /// The locks on a file, where there are some.
    pub(crate) fn get(&self, inode: u64) -> Option<&LockList>
        ensures { option_copied result ≡ at self.now inode }
    {
        self.map.get(&inode)
    }

    /// Drops the locks on a file.
    pub(crate) fn remove(&mut self, inode: u64)
        ensures { self.new ≡ removed self.old inode }
    {
        let _locks = self.map.remove(&inode);
    }

    /// Gives bytes of a file another lock of the process, or none.
    #[tactic(auto, unfolding(crate::specs::OwnLocks::locked))]
    pub(crate) fn lock(
        &mut self,
        alloc: Global,
        inode: u64,
        wanted: Option<LockKind>,
        range: ByteRange,
    ) -> Result<(), OutOfMemory>
        requires { range.first ≤ range.last }
        ensures { OnOk result (self.new ≡ locked self.old inode wanted range) }
    {
        if let Some(locks) = self.map.get_mut(&inode) {
            return locks.set(alloc, wanted, range);
        }
        let mut locks = LockList::new(alloc);
        locks.set(alloc, wanted, range)?;
        match self.map.insert(inode, locks) {
            Ok(_) => Ok(()),
            Err(_) => Err(OutOfMemory),
        }
    }
}
