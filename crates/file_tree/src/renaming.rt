//! The parts of renaming.

ghost use Rattle.std.specs.Prelude.{◌≡◌, OnOk};
ghost use Rattle.kernel_values.specs.Outcome.{Tells};
ghost use Rattle.file_tree.specs.Renaming.{displaced, dropped, is_fixed, is_same, may_move, renamed, replaceable};

use crate::state::FileTree;
use file_tables::{Last, ends_with_slash, is_dot, is_dot_dot};
use kernel_values::{Errno, OutOfMemory, TimeSpec};
use std::alloc::Global;

/// Whether a last name is none, `.` or `..`.
pub fn is_fixed(name: &[u8]) -> bool
    ensures { result ≡ is_fixed name.now }
{
    name.is_empty() || is_dot(name) || is_dot_dot(name)
}

/// Whether a name means this inode.
pub fn is_same(inode: u64, entry: Option<u64>) -> bool
    ensures { result ≡ is_same inode entry }
{
    match entry {
        Some(there) => inode == there,
        None => false,
    }
}

impl FileTree {
    /// Whether what is there may be replaced. Of a directory that is moved ENOTDIR, ENOTEMPTY and EBUSY; of a file EISDIR.
    #[tactic(auto, unfolding(crate::specs::Renaming::replaceable))]
    fn replaceable(&self, inode: u64, entry: Option<u64>, held: bool) -> Result<(), Errno>
        ensures { Tells result (replaceable self.now inode entry held) }
    {
        let Some(there) = entry else {
            return Ok(());
        };
        if self.is_directory(inode) {
            return self.spare(there, held);
        }
        if self.is_directory(there) {
            return Err(Errno::IsDirectory);
        }
        Ok(())
    }

    /// Whether an inode may get the new name, which now means `entry`; `held` where an open file has that. ENOTDIR for a file and a
    /// missing name with a slash at the end; EINVAL for a directory into itself; what refuses the replacing: for a directory onto
    /// what is there ENOTDIR, ENOTEMPTY and EBUSY, for a file EISDIR.
    #[tactic(auto, unfolding(crate::specs::Renaming::may_move))]
    pub fn may_move(
        &self,
        inode: u64,
        last: &Last<'_>,
        path: &[u8],
        entry: Option<u64>,
        held: bool,
    ) -> Result<(), Errno>
        ensures { Tells result (may_move self.now inode (last.now.place, last.now.name.now) path.now entry held) }
    {
        let is_directory = self.is_directory(inode);
        if !is_directory && entry.is_none() && ends_with_slash(path) {
            return Err(Errno::NotDirectory);
        }
        if is_directory && self.directories.lies_inside(inode, last.place) {
            return Err(Errno::InvalidArgument);
        }
        self.replaceable(inode, entry, held)
    }

    /// Drops what lost its name.
    #[tactic(auto, unfolding(crate::specs::Renaming::dropped))]
    fn drop_inode(&mut self, inode: u64, held: bool)
        ensures { self.new ≡ dropped self.old inode held }
    {
        if self.is_directory(inode) {
            self.drop_directory(inode);
            return;
        }
        self.unname(inode, held);
    }

    /// Drops what has the new name, and that name.
    fn displace(&mut self, now: TimeSpec, last: &Last<'_>, entry: Option<u64>, held: bool)
        ensures { self.new ≡ displaced self.old now (last.now.place, last.now.name.now) entry held }
    {
        if let Some(there) = entry {
            self.drop_name(now, last);
            self.drop_inode(there, held);
        }
    }

    /// Takes the old name of an inode out and makes the new one, at a time. What has the new name, `entry`, is dropped, unless it is
    /// a file that is `held`: an open file has it.
    #[tactic(auto, unfolding(crate::specs::Renaming::renamed))]
    pub fn move_name(
        &mut self,
        alloc: Global,
        now: TimeSpec,
        old: &Last<'_>,
        new: &Last<'_>,
        inode: u64,
        entry: Option<u64>,
        held: bool,
    ) -> Result<(), OutOfMemory>
        ensures { OnOk result (self.new ≡ renamed self.old now (old.now.place, old.now.name.now) (new.now.place, new.now.name.now) inode entry held) }
    {
        self.drop_name(now, old);
        self.displace(now, new, entry, held);
        self.add_name(alloc, now, new, inode)?;
        self.directories.move_into(inode, new.place);
        Ok(())
    }
}
