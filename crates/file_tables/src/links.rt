//! The links of directories.

ghost use Rattle.std.specs.Prelude.{◌≡◌, ℕ, ◌+◌, ◌-◌, ◌^◌, ◌≤◌, min, length, if◌then◌else◌};
ghost use Rattle.file_tables.specs.Directories.{is_directory};
ghost use Rattle.file_tables.specs.Links.{directory_links};

use crate::state::Directory;
use crate::table::Table;

impl Table<Directory> {
    /// What an inode adds to the links of the directory that has a name of it: its `..`, where it is a directory.
    fn links_from(&self, inode: u64) -> u32
        ensures { result ≡ (if is_directory self.now inode then 1 else 0) }
    {
        if self.has(inode) { 1 } else { 0 }
    }

    /// The links of a directory: its name, its `.`, and the `..` of each directory in it, at most 2^32 - 1. One look-up for each name.
    #[tactic(auto, using(crate::proofs::LinkSums::no_directories, crate::proofs::LinkSums::first_directory, crate::proofs::LinkSums::sum_stops, crate::proofs::LinkSums::sum_ends, number_maps::proofs::Steps::fewer_left))]
    pub fn directory_links(&self, directory: &Directory) -> u32
        ensures { result ≡ directory_links self.now directory.now }
    {
        let mut links: u32 = 2;
        let mut last = None;
        while let Some((position, entry)) = directory.names.after(last) {
            links = links.saturating_add(self.links_from(entry.child));
            last = Some(position);
        }
        links
    }
}
