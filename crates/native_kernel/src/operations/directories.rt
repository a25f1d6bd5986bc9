//! The calls of the kernel that make, remove, rename and list the names in directories.

ghost use Rattle.std.specs.Prelude.{◌≡◌, ◌<◌, IfOk, IfSome};
ghost use Rattle.kernel_values.specs.Outcome.{Gives, GivesAlways, Tells};
ghost use Rattle.file_tree.specs.Listing.{TellsEntry};
ghost use Rattle.native_kernel.specs.Operations.{listing, make_directory, position, remove, rename};

use crate::state::Kernel;
use kernel_values::{Answer, DirEntry, Errno, TimeSpec};
use std::alloc::Global;

impl Kernel {
    /// Makes a directory, at a path from the directory of descriptor `from` or from the working directory (-100). ENFILE;
    /// what refuses the path; EEXIST.
    #[tactic(auto, unfolding(crate::specs::Operations::make_directory))]
    pub fn make_directory(&mut self, alloc: Global, from: i64, path: &[u8], mode: u32) -> Answer<()>
        ensures { Gives (λ _. tt) result self.new (make_directory self.old from path.now mode) }
    {
        let maker = self.maker();
        self.files.make_directory(alloc, &maker, from, path, mode)
    }

    /// Removes the name of a file, or with the flag `AT_REMOVEDIR`, 0x200, a directory. EINVAL for other flags. Of a file
    /// what refuses the path, ENOENT, EISDIR. Of a directory what refuses the steps to the last name, its length and its place, EINVAL for `.`,
    /// ENOTEMPTY for `..`, EBUSY for the root, ENOENT, ENOTDIR, ENOTEMPTY, EBUSY. It takes no memory.
    #[tactic(auto, unfolding(crate::specs::Operations::remove))]
    pub fn remove(&mut self, from: i64, path: &[u8], flags: i64) -> Answer<()>
        ensures { GivesAlways (λ _. tt) result self.new (remove self.old from path.now flags) }
    {
        let now = TimeSpec::of_nanoseconds(self.clocks.real());
        self.files.remove(now, from, path, flags)
    }

    /// Gives what one path names the name of another path. ENFILE; what refuses the steps to both last names; EBUSY for
    /// `.`, `..` and the root; ENOTDIR and ENOENT of the old name, ENOTDIR of the new one; ENOTDIR for a file and a missing
    /// name with a slash at its end; EINVAL for a directory into itself; ENOTDIR, ENOTEMPTY, EBUSY and EISDIR by what has the
    /// new name.
    #[tactic(auto, unfolding(crate::specs::Operations::rename))]
    pub fn rename(&mut self, alloc: Global, old: &[u8], new: &[u8]) -> Answer<()>
        ensures { Gives (λ _. tt) result self.new (rename self.old old.now new.now) }
    {
        let now = TimeSpec::of_nanoseconds(self.clocks.real());
        self.files.rename(alloc, now, old, new)
    }

    /// The first entry of a directory at a greater position: `.` at 1, `..` at 2, then the names in the order of their
    /// making. None where no entry has a greater position. EBADF; ENOTDIR.
    #[tactic(auto, unfolding(crate::specs::Operations::listing))]
    pub fn entry_after(&self, alloc: Global, fd: i64, position: u64) -> Answer<Option<DirEntry>>
        ensures told { TellsEntry (listing self.now fd) position result }
        ensures behind { IfOk result (λ found. IfSome found (λ e. position < e.position)) }
    {
        self.files.entry_after(alloc, fd, position)
    }

    /// Where the listing of an open directory goes on: the position of an open file. EBADF.
    #[tactic(auto, unfolding(crate::specs::Operations::position))]
    pub fn position(&self, fd: i64) -> Result<u64, Errno>
        ensures { Tells result (position self.now fd) }
    {
        self.files.open_files.position(fd)
    }
}
