//! From a path to an inode, by steps that begin at a directory.

ghost use Rattle.std.specs.Prelude.{◌≡◌};
ghost use Rattle.kernel_values.specs.Outcome.{Tells, TellsAs};
ghost use Rattle.file_tree.specs.Paths.{entry_at, inode_from, is_directory, last_entry, parent_from};

use crate::state::FileTree;
use file_tables::Last;
use kernel_values::Errno;

impl FileTree {
    /// Whether an inode is a directory.
    pub fn is_directory(&self, inode: u64) -> bool
        ensures { result ≡ is_directory self.now inode }
    {
        self.directories.has(inode)
    }

    /// The steps of a path from a directory to its last name, and that name: no bytes where there is none. ENAMETOOLONG; ENOTDIR;
    /// ENOENT.
    #[tactic(auto, unfolding(crate::specs::Paths::parent_from))]
    pub fn parent_from<'a>(&self, start: u64, path: &'a [u8]) -> Result<Last<'a>, Errno>
        ensures { TellsAs (λ l. (l.place, l.name.now)) result (parent_from self.now start path.now) }
    {
        self.directories.walk(start, path)
    }

    /// What a last name means, if it is there, whatever stands behind it in the path. ENAMETOOLONG; ENOTDIR.
    #[tactic(auto, unfolding(crate::specs::Paths::entry_at))]
    pub fn entry_at(&self, last: &Last<'_>) -> Result<Option<u64>, Errno>
        ensures { Tells result (entry_at self.now (last.now.place, last.now.name.now)) }
    {
        self.directories.entry_at(last.place, last.name)
    }

    /// What the last name of a path means, if it is there. ENAMETOOLONG; ENOTDIR, also for what is no directory with a slash at the
    /// end of the path.
    #[tactic(auto, unfolding(crate::specs::Paths::last_entry))]
    pub fn last_entry(&self, last: &Last<'_>, path: &[u8]) -> Result<Option<u64>, Errno>
        ensures { Tells result (last_entry self.now (last.now.place, last.now.name.now) path.now) }
    {
        self.directories.last_entry(last, path)
    }

    /// The inode of a path from a directory. ENAMETOOLONG; ENOTDIR; ENOENT.
    #[tactic(auto, unfolding(crate::specs::Paths::inode_from))]
    pub fn inode_from(&self, start: u64, path: &[u8]) -> Result<u64, Errno>
        ensures { Tells result (inode_from self.now start path.now) }
    {
        let last = self.parent_from(start, path)?;
        let entry = self.last_entry(&last, path)?;
        entry.ok_or(Errno::NoEntry)
    }
}
