//! Where a directory lies.

ghost use Rattle.std.specs.Prelude.{◌≡◌, ℕ, ◌-◌, ◌+◌, ◌==◌, length};
ghost use Rattle.file_tables.specs.Places.{lies_inside, moved_into};

use crate::state::Directory;
use crate::table::Table;

impl Table<Directory> {
    /// Whether the inode `place` is the directory `inode` or lies below it: one look-up for each directory on the way to the root.
    #[tactic(auto, using(crate::proofs::Insides::inside_end, crate::proofs::Insides::inside_here, crate::proofs::Insides::inside_next))]
    pub fn lies_inside(&self, inode: u64, place: u64) -> bool
        ensures { result ≡ lies_inside self.now inode place }
    {
        let mut above = place;
        for step in 0..self.len() {
            if above == inode {
                return true;
            }
            above = self.parent_of(above);
        }
        false
    }

    /// Lets the directory `inode` lie in the directory `parent`, where it is one. It takes no memory.
    #[tactic(auto, unfolding(crate::specs::Places::moved_into))]
    pub fn move_into(&mut self, inode: u64, parent: u64)
        ensures { self.new ≡ moved_into self.old inode parent }
    {
        if let Some(directory) = self.map.get_mut(&inode) {
            directory.parent = parent;
        }
    }
}
