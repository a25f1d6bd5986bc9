//! The working directory.

ghost use Rattle.std.specs.Prelude.{◌≡◌, ◌≤◌, length, IfOk, IfSome, option_map};
ghost use Rattle.kernel_values.specs.Outcome.{GivesTold};
ghost use Rattle.file_tables.specs.PathTexts.{path_text, short_text};
ghost use Rattle.file_tree.specs.Working.{current_directory, with_working, working_text};

use crate::state::FileTree;
use file_tables::{append, path_text};
use kernel_values::{Answer, Errno, KernelFault, OutOfMemory};
use std::alloc::Global;

impl FileTree {
    /// The inode of the working directory.
    pub fn working(&self) -> u64
        ensures { result ≡ self.now.working }
    {
        self.working
    }

    /// Makes an inode, a directory, the working one.
    #[tactic(auto, unfolding(crate::specs::Working::with_working))]
    pub fn set_working(&mut self, inode: u64)
        ensures { self.new ≡ with_working self.old inode }
    {
        self.working = inode;
    }

    /// The path of the working directory. None where it has more than 4,095 bytes.
    #[tactic(auto, unfolding(crate::specs::Working::working_text), using(crate::proofs::Workings::short_path, crate::proofs::Workings::short_length))]
    fn working_text(&self, alloc: Global) -> Result<Option<Vec<u8>>, OutOfMemory>
        ensures text { IfOk result (λ v. option_map (λ t. t.items) v ≡ short_text (working_text self.now)) }
        ensures short { IfOk result (λ v. IfSome v (λ t. length t.items ≤ 4095)) }
    {
        match self.directories.text_up(alloc, self.working)? {
            Some(text) => Ok(Some(path_text(text)?)),
            None => Ok(None),
        }
    }

    /// getcwd: the path of the working directory, with a zero at its end. ENAMETOOLONG where that is more than
    /// 4,096 bytes; ERANGE where it is more than `size`.
    #[tactic(auto, unfolding(crate::specs::Working::current_directory))]
    pub fn current_directory(&self, alloc: Global, size: u64) -> Answer<Vec<u8>>
        ensures told { GivesTold (λ v. v.items) result (current_directory self.now size) }
        ensures length { IfOk result (λ v. length v.items ≤ 4096) }
    {
        let Some(mut text) = self.working_text(alloc)? else {
            return Err(KernelFault::Errno(Errno::NameTooLong));
        };
        if text.len() as u64 + 1 > size {
            return Err(KernelFault::Errno(Errno::OutOfRange));
        }
        append(&mut text, &[0])?;
        Ok(text)
    }
}
