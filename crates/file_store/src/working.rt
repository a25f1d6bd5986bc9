//! Another working directory.

ghost use Rattle.kernel_values.specs.Outcome.{GivesAlways};
ghost use Rattle.file_store.specs.Working.{change_directory};

use crate::state::Files;
use kernel_values::{Answer, Errno, KernelFault};

impl Files {
    /// chdir: makes a directory the working one. ENOENT, ENOTDIR, ENAMETOOLONG.
    pub fn change_directory(&mut self, from: i64, path: &[u8]) -> Answer<()>
        ensures { GivesAlways (λ _. tt) result self.new (change_directory self.old from path.now) }
    {
        let inode = self.resolve(from, path)?;
        if !self.tree.is_directory(inode) {
            return Err(KernelFault::Errno(Errno::NotDirectory));
        }
        self.tree.set_working(inode);
        Ok(())
    }
}
