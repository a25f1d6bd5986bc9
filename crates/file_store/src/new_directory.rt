//! The making of directories.

ghost use Rattle.std.specs.Prelude.{◌≡◌, false, OnOk};
ghost use Rattle.kernel_values.specs.Outcome.{Gives};
ghost use Rattle.open_files.specs.Made.{is_full};
ghost use Rattle.file_store.specs.NewDirectory.{make_directory, with_directory};

use crate::state::Files;
use file_tables::Last;
use file_tree::Maker;
use kernel_values::{Answer, Errno, KernelFault, OutOfMemory};
use std::alloc::Global;

impl Files {
    /// Makes a directory and its name.
    fn add_directory(
        &mut self,
        alloc: Global,
        maker: &Maker,
        last: &Last<'_>,
        mode: u32,
    ) -> Result<(), OutOfMemory>
        requires { is_full self.old.open_files.made ≡ false }
        ensures { OnOk result (self.new ≡ with_directory self.old maker.now (last.now.place, last.now.name.now) mode) }
    {
        self.tree.add_directory(alloc, maker, last, mode)?;
        self.open_files.count(2);
        Ok(())
    }

    /// mkdir and mkdirat: makes a directory. `from` is the descriptor of the directory where a path begins that has
    /// no slash at its front, or `AT_FDCWD`.
    ///
    /// ENFILE where fewer than four things are left to make; what refuses the path (ENOENT, EBADF, ENOTDIR,
    /// ENAMETOOLONG); EEXIST where the last name is there.
    pub fn make_directory(
        &mut self,
        alloc: Global,
        maker: &Maker,
        from: i64,
        path: &[u8],
        mode: u32,
    ) -> Answer<()>
        ensures { Gives (λ _. tt) result self.new (make_directory self.old maker.now from path.now mode) }
    {
        if self.open_files.is_full() {
            return Err(KernelFault::Errno(Errno::TableFull));
        }
        let last = self.resolve_parent(from, path)?;
        let entry = self.tree.last_entry(&last, path)?;
        if entry.is_some() {
            return Err(KernelFault::Errno(Errno::Exists));
        }
        self.add_directory(alloc, maker, &last, mode)?;
        Ok(())
    }
}
