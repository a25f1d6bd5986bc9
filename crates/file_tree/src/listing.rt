//! The listing of a directory, entry by entry.

ghost use Rattle.std.specs.Prelude.{◌<◌, IfOk, IfSome};
ghost use Rattle.file_tables.specs.Listing.{told};
ghost use Rattle.file_tree.specs.Listing.{TellsEntry, listing};

use crate::state::FileTree;
use kernel_values::{Answer, DirEntry, Errno, KernelFault};
use std::alloc::Global;

impl FileTree {
    /// The first entry at a greater position of a directory: `.` stands at position 1, `..` at 2, and the names follow in the order
    /// of their making. None where no entry has a greater position. ENOTDIR.
    #[tactic(auto, unfolding(crate::specs::Listing::listing, file_tables::specs::Listing::listed_after))]
    pub fn entry_after(&self, alloc: Global, inode: u64, position: u64) -> Answer<Option<DirEntry>>
        ensures told { TellsEntry (listing self.now inode) position result }
        ensures behind { IfOk result (λ found. IfSome found (λ e. position < e.position)) }
    {
        let Some(directory) = self.directories.get(inode) else {
            return Err(KernelFault::Errno(Errno::NotDirectory));
        };
        match directory.line_after(inode, position) {
            Some(line) => Ok(Some(self.directories.told(alloc, line)?)),
            None => Ok(None),
        }
    }
}
