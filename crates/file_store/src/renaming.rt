//! Renaming.

ghost use Rattle.std.specs.Prelude.{◌≡◌, false, OnOk};
ghost use Rattle.kernel_values.specs.Outcome.{Gives};
ghost use Rattle.open_files.specs.Made.{is_full};
ghost use Rattle.file_store.specs.Renaming.{is_entry_open, rename, renamed};

use crate::state::Files;
use file_tables::Last;
use file_tree::{is_fixed, is_same};
use kernel_values::{AT_FDCWD, Answer, Errno, KernelFault, OutOfMemory, TimeSpec};
use std::alloc::Global;

impl Files {
    /// Whether some open file has what a name means.
    fn is_entry_open(&self, entry: Option<u64>) -> bool
        ensures { result ≡ is_entry_open self.now entry }
    {
        match entry {
            Some(inode) => self.has_open(inode),
            None => false,
        }
    }

    /// Takes the old name out and makes the new one.
    fn move_name(
        &mut self,
        alloc: Global,
        now: TimeSpec,
        old: &Last<'_>,
        new: &Last<'_>,
        inode: u64,
        entry: Option<u64>,
    ) -> Result<(), OutOfMemory>
        requires { is_full self.old.open_files.made ≡ false }
        ensures { OnOk result (self.new ≡ renamed self.old now (old.now.place, old.now.name.now) (new.now.place, new.now.name.now) inode entry) }
    {
        let held = self.is_entry_open(entry);
        self.open_files.count(1);
        self.tree
            .move_name(alloc, now, old, new, inode, entry, held)
    }

    /// rename: gives what one path names the name of another path, at a new position, and drops what had that name. A name
    /// of the same inode is good, and then nothing changes. `now` is the real time, which the times of both directories
    /// are set to.
    ///
    /// ENFILE where fewer than four things are left to make; what refuses the steps to both last names (ENOENT, ENOTDIR,
    /// ENAMETOOLONG); EBUSY for the root, `.` and `..`; ENOENT and ENOTDIR of the old name, ENOTDIR of the new one; ENOTDIR
    /// for a file and a missing name with a slash at the end; EINVAL for a directory into itself; for a directory onto
    /// what is there ENOTDIR, ENOTEMPTY and EBUSY, for a file EISDIR.
    pub fn rename(&mut self, alloc: Global, now: TimeSpec, old: &[u8], new: &[u8]) -> Answer<()>
        ensures { Gives (λ _. tt) result self.new (rename self.old now old.now new.now) }
    {
        if self.open_files.is_full() {
            return Err(KernelFault::Errno(Errno::TableFull));
        }
        let source = self.parent_named(AT_FDCWD, old)?;
        let target = self.parent_named(AT_FDCWD, new)?;
        if is_fixed(source.name) || is_fixed(target.name) {
            return Err(KernelFault::Errno(Errno::Busy));
        }
        let found = self.tree.last_entry(&source, old)?;
        let inode = found.ok_or(Errno::NoEntry)?;
        let entry = self.tree.last_entry(&target, new)?;
        if is_same(inode, entry) {
            return Ok(());
        }
        let held = self.is_entry_open(entry);
        self.tree.may_move(inode, &target, new, entry, held)?;
        self.move_name(alloc, now, &source, &target, inode, entry)?;
        Ok(())
    }
}
