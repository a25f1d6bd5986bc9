//! The listing of a directory that is open, entry by entry.

ghost use Rattle.std.specs.Prelude.{◌<◌, IfOk, IfSome};
ghost use Rattle.file_tree.specs.Listing.{TellsEntry};
ghost use Rattle.file_store.specs.Listing.{listing};

use crate::state::Files;
use kernel_values::{Answer, DirEntry};
use std::alloc::Global;

impl Files {
    /// The first entry at a greater position of the directory that a descriptor has open: `.` stands at position 1, `..`
    /// at 2, and the names follow in the order of their making. None where no entry has a greater position. EBADF;
    /// ENOTDIR.
    #[tactic(auto, unfolding(crate::specs::Listing::listing))]
    pub fn entry_after(&self, alloc: Global, fd: i64, position: u64) -> Answer<Option<DirEntry>>
        ensures told { TellsEntry (listing self.now fd) position result }
        ensures behind { IfOk result (λ found. IfSome found (λ e. position < e.position)) }
    {
        let (_, file) = self.open_files.open_file(fd)?;
        self.tree.entry_after(alloc, file.inode, position)
    }
}
