//! The removing of names, and of what they meant.

ghost use Rattle.std.specs.Prelude.{◌≡◌};
ghost use Rattle.kernel_values.specs.Outcome.{Tells};
ghost use Rattle.file_tree.specs.Removing.{let_go, spare, unnamed, without_directory, without_locks_on, without_name};

use crate::state::FileTree;
use file_tables::Last;
use kernel_values::{Errno, TimeSpec};

impl FileTree {
    /// Takes a name out of its directory, at a time. It takes no memory.
    #[tactic(auto, unfolding(crate::specs::Removing::without_name))]
    pub fn drop_name(&mut self, now: TimeSpec, last: &Last<'_>)
        ensures { self.new ≡ without_name self.old now (last.now.place, last.now.name.now) }
    {
        self.directories.leave(last.place, last.name);
        self.nodes.touch(last.place, now);
    }

    /// Drops a file that lost its name, where it isn't `held`: no open file has it. It takes no memory.
    #[tactic(auto, unfolding(crate::specs::Removing::unnamed))]
    pub fn unname(&mut self, inode: u64, held: bool)
        ensures { self.new ≡ unnamed self.old inode held }
    {
        if held {
            self.nodes.forget_name(inode);
            return;
        }
        let _node = self.nodes.remove(inode);
        self.contents.remove(inode);
    }

    /// Drops a file that has no name and isn't `held`: no open file has it any more. It takes no memory.
    #[tactic(auto, unfolding(crate::specs::Removing::let_go))]
    pub fn let_go(&mut self, inode: u64, held: bool)
        ensures { self.new ≡ let_go self.old inode held }
    {
        if self.nodes.stays(inode) || held {
            return;
        }
        let _node = self.nodes.remove(inode);
        self.contents.remove(inode);
    }

    /// Whether a directory may go. ENOTDIR; ENOTEMPTY; EBUSY for the working directory and for one that is `held`: an open file has
    /// it.
    #[tactic(auto, unfolding(crate::specs::Removing::spare))]
    pub fn spare(&self, inode: u64, held: bool) -> Result<(), Errno>
        ensures { Tells result (spare self.now inode held) }
    {
        let Some(directory) = self.directories.get(inode) else {
            return Err(Errno::NotDirectory);
        };
        if directory.names.len() != 0 {
            return Err(Errno::NotEmpty);
        }
        if self.working == inode || held {
            return Err(Errno::Busy);
        }
        Ok(())
    }

    /// Drops a directory that lost its name. It takes no memory.
    #[tactic(auto, unfolding(crate::specs::Removing::without_directory))]
    pub fn drop_directory(&mut self, inode: u64)
        ensures { self.new ≡ without_directory self.old inode }
    {
        let _directory = self.directories.remove(inode);
        let _node = self.nodes.remove(inode);
    }

    /// Drops the process's locks on a file. It takes no memory.
    #[tactic(auto, unfolding(crate::specs::Removing::without_locks_on))]
    pub fn drop_locks_on(&mut self, inode: u64)
        ensures { self.new ≡ without_locks_on self.old inode }
    {
        self.own_locks.remove(inode);
    }
}
