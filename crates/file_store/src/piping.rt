//! The making of pipes.

ghost use Rattle.std.specs.Prelude.{◌≡◌, false, OnOk};
ghost use Rattle.kernel_values.specs.Outcome.{Gives};
ghost use Rattle.open_files.specs.Made.{is_full};
ghost use Rattle.file_store.specs.Piping.{pipe, with_pipe};

use crate::state::Files;
use kernel_values::{Answer, OutOfMemory};
use std::alloc::Global;

impl Files {
    /// Makes a pipe with its ends at two numbers.
    fn add_pipe(
        &mut self,
        alloc: Global,
        flags: u32,
        numbers: (u32, u32),
    ) -> Result<(), OutOfMemory>
        requires { is_full self.old.open_files.made ≡ false }
        ensures { OnOk result (self.new ≡ with_pipe self.old flags numbers) }
    {
        let inode = self.tree.take_inode()?;
        self.open_files.add_pipe(alloc, flags, numbers, inode)
    }

    /// pipe, with `flags` 0, and pipe2: makes a pipe, and gives the numbers of its ends, first of the one that is read from.
    /// They are the two lowest free numbers below `limit`, the soft limit of descriptors.
    ///
    /// EMFILE; ENFILE where fewer than four things are left to make; EINVAL for flags other than O_NONBLOCK and O_CLOEXEC.
    pub fn pipe(&mut self, alloc: Global, limit: u32, flags: u32) -> Answer<(u32, u32)>
        ensures { Gives (λ n. n) result self.new (pipe self.old limit flags) }
    {
        let numbers = self.open_files.pipe_numbers(limit, flags)?;
        self.add_pipe(alloc, flags, numbers)?;
        Ok(numbers)
    }
}
