//! Names put into directories, and taken out of them.

ghost use Rattle.std.specs.Prelude.{◌≡◌, ℕ, ◌+◌, [], OnOk};
ghost use Rattle.file_tables.specs.Entries.{named};
ghost use Rattle.file_tables.specs.Contained.{empty_directory, entered, left, with_entry, without_entry};

use crate::name_table::NameTable;
use crate::state::Directory;
use crate::table::Table;
use kernel_values::{NameText, OutOfMemory};
use std::alloc::Global;

impl Directory {
    /// A directory without names that lies in the directory `parent`, an inode. It takes no memory yet.
    pub fn empty(alloc: Global, parent: u64) -> Directory
        ensures { result ≡ empty_directory parent }
    {
        Directory {
            parent,
            last: 2,
            names: NameTable::new(alloc),
        }
    }

    /// Puts a name at the next position. There are more positions than names can be made.
    fn add(&mut self, name: NameText, child: u64) -> Result<(), OutOfMemory>
        ensures { OnOk result (self.new ≡ with_entry self.old name child) }
    {
        let Some(position) = self.last.checked_add(1) else {
            return Err(OutOfMemory);
        };
        self.last = position;
        self.names.put(position, name, child)
    }

    /// Takes a name out, where it is there.
    fn take_out(&mut self, name: &[u8])
        ensures { self.new ≡ without_entry self.old (named self.old.names name.now) }
    {
        self.names.remove(name);
    }
}

impl Table<Directory> {
    /// Puts a name of the inode `child` at the next position of the directory `place`, where it is there.
    #[tactic(auto, unfolding(crate::specs::Contained::entered))]
    pub fn enter(&mut self, place: u64, name: NameText, child: u64) -> Result<(), OutOfMemory>
        ensures { OnOk result (self.new ≡ entered self.old place name child) }
    {
        match self.map.get_mut(&place) {
            Some(directory) => directory.add(name, child),
            None => Ok(()),
        }
    }

    /// Takes a name out of the directory `place`, where both are there. Its position isn't given again. It takes no memory.
    #[tactic(auto, unfolding(crate::specs::Contained::left))]
    pub fn leave(&mut self, place: u64, name: &[u8])
        ensures { self.new ≡ left self.old place name.now }
    {
        if let Some(directory) = self.map.get_mut(&place) {
            directory.take_out(name);
        }
    }
}
