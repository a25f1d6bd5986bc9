//! The removing of names, and of what they meant.

ghost use Rattle.std.specs.Prelude.{◌≡◌};
ghost use Rattle.kernel_values.specs.Outcome.{GivesAlways, TellsAs};
ghost use Rattle.file_store.specs.Removing.{has_open, parent_named, remove, remove_directory, unlink};

use crate::state::Files;
use file_tables::{Last, is_dot, is_dot_dot};
use kernel_values::{Answer, Errno, KernelFault, TimeSpec};

/// `AT_REMOVEDIR` of `include/uapi/linux/fcntl.h`.
const REMOVE_DIRECTORY: i64 = 0x200;

impl Files {
    /// Whether some open file has an inode.
    pub(crate) fn has_open(&self, inode: u64) -> bool
        ensures { result ≡ has_open self.now inode }
    {
        self.open_files.is_open(inode)
    }

    /// The steps of a path to its last name, and that name, with what refuses the name whether it is there or not.
    /// ENOENT; EBADF; ENOTDIR; ENAMETOOLONG.
    #[tactic(auto, unfolding(crate::specs::Removing::parent_named))]
    pub(crate) fn parent_named<'a>(&self, from: i64, path: &'a [u8]) -> Result<Last<'a>, Errno>
        ensures { TellsAs (λ l. (l.place, l.name.now)) result (parent_named self.now from path.now) }
    {
        let last = self.resolve_parent(from, path)?;
        self.tree.entry_at(&last)?;
        Ok(last)
    }

    /// unlink: removes the name of a file, and the file where no open file holds it. What refuses the path; ENOENT;
    /// EISDIR. It takes no memory.
    fn unlink(&mut self, now: TimeSpec, from: i64, path: &[u8]) -> Answer<()>
        ensures { GivesAlways (λ _. tt) result self.new (unlink self.old now from path.now) }
    {
        let last = self.resolve_parent(from, path)?;
        let entry = self.tree.last_entry(&last, path)?;
        let inode = entry.ok_or(Errno::NoEntry)?;
        if self.tree.is_directory(inode) {
            return Err(KernelFault::Errno(Errno::IsDirectory));
        }
        let held = self.has_open(inode);
        self.tree.drop_name(now, &last);
        self.tree.unname(inode, held);
        Ok(())
    }

    /// rmdir: removes a directory. What refuses the steps to the last name, its length and its place; EINVAL for `.`;
    /// ENOTEMPTY for `..`; EBUSY for the root; ENOENT; ENOTDIR; ENOTEMPTY; EBUSY. It takes no memory.
    fn remove_directory(&mut self, now: TimeSpec, from: i64, path: &[u8]) -> Answer<()>
        ensures { GivesAlways (λ _. tt) result self.new (remove_directory self.old now from path.now) }
    {
        let last = self.parent_named(from, path)?;
        if is_dot(last.name) {
            return Err(KernelFault::Errno(Errno::InvalidArgument));
        }
        if is_dot_dot(last.name) {
            return Err(KernelFault::Errno(Errno::NotEmpty));
        }
        if last.name.is_empty() {
            return Err(KernelFault::Errno(Errno::Busy));
        }
        let entry = self.tree.last_entry(&last, path)?;
        let inode = entry.ok_or(Errno::NoEntry)?;
        self.tree.spare(inode, self.has_open(inode))?;
        self.tree.drop_name(now, &last);
        self.tree.drop_directory(inode);
        Ok(())
    }

    /// unlink, rmdir and unlinkat: removes the name of a file, or a directory with the flag AT_REMOVEDIR, 0x200. `now` is
    /// the real time, which the times of the directory that had the name are set to. It takes no memory.
    ///
    /// EINVAL for other flags. Of a file what refuses the path; ENOENT; EISDIR. Of a directory what refuses the steps to
    /// the last name; EINVAL for `.`, ENOTEMPTY for `..`, EBUSY for the root; ENOENT; ENOTDIR; ENOTEMPTY; EBUSY for the
    /// working directory and for one that an open file has.
    pub fn remove(&mut self, now: TimeSpec, from: i64, path: &[u8], flags: i64) -> Answer<()>
        ensures { GivesAlways (λ _. tt) result self.new (remove self.old now from path.now flags) }
    {
        if flags == 0 {
            return self.unlink(now, from, path);
        }
        if flags == REMOVE_DIRECTORY {
            return self.remove_directory(now, from, path);
        }
        Err(KernelFault::Errno(Errno::InvalidArgument))
    }
}
