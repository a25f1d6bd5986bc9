//! The state at first, and what the image puts into it.

ghost use Rattle.std.specs.Prelude.{◌≡◌, IfOk, OnOk};
ghost use Rattle.kernel_values.specs.Outcome.{Gives};
ghost use Rattle.open_files.specs.Descriptors.{counted};
ghost use Rattle.file_store.specs.Image.{fresh_files, image_bytes, image_directory, image_file, image_lock};

use crate::state::Files;
use file_tree::FileTree;
use kernel_values::{Answer, OutOfMemory};
use open_files::OpenFiles;
use std::alloc::Global;

impl Files {
    /// The root alone, which is the working directory, and nothing is open.
    #[tactic(auto, unfolding(crate::specs::Image::fresh_files))]
    pub fn new(alloc: Global) -> Result<Files, OutOfMemory>
        ensures { IfOk result (λ s. s ≡ fresh_files) }
    {
        Ok(Files {
            tree: FileTree::new(alloc)?,
            open_files: OpenFiles::new(alloc),
        })
    }

    /// Counts an inode and its name. A script has fewer lines than things may be made.
    fn count_image_name(&mut self) -> Result<(), OutOfMemory>
        ensures { OnOk result (self.new ≡ record self.old { open_files = counted self.old.open_files 2 }) }
    {
        if self.open_files.is_full() {
            return Err(OutOfMemory);
        }
        self.open_files.count(2);
        Ok(())
    }

    /// Puts a directory of the image, by a path from the root. ENOENT, ENOTDIR and ENAMETOOLONG where the steps to the last name
    /// are refused.
    pub fn image_directory(&mut self, alloc: Global, path: &[u8], inode: u64) -> Answer<()>
        ensures { Gives (λ _. tt) result self.new (image_directory self.old path.now inode) }
    {
        self.tree.image_directory(alloc, path, inode)?;
        self.count_image_name()?;
        Ok(())
    }

    /// Puts a file of the image, with `size` zeros, by a path from the root. EFBIG above 2^40 bytes; ENOENT, ENOTDIR and
    /// ENAMETOOLONG where the steps to the last name are refused.
    pub fn image_file(&mut self, alloc: Global, path: &[u8], inode: u64, size: u64) -> Answer<()>
        ensures { Gives (λ _. tt) result self.new (image_file self.old path.now inode size) }
    {
        self.tree.image_file(alloc, path, inode, size)?;
        self.count_image_name()?;
        Ok(())
    }

    /// Puts bytes into a file of the image, from an offset on. EFBIG where they end above 2^40; ENOENT, ENOTDIR
    /// and ENAMETOOLONG where the path is refused.
    pub fn image_bytes(
        &mut self,
        alloc: Global,
        path: &[u8],
        offset: u64,
        bytes: &[u8],
    ) -> Answer<()>
        ensures { Gives (λ _. tt) result self.new (image_bytes self.old path.now offset bytes.now) }
    {
        self.tree.image_bytes(alloc, path, offset, bytes)
    }

    /// Puts a lock of the process `pid` on a file of the image: on `length` bytes from `start` on, or on all of them for
    /// length 0. ENOENT, ENOTDIR and ENAMETOOLONG where the path is refused; EOVERFLOW where it reaches past 2^63 - 1.
    pub fn image_lock(
        &mut self,
        path: &[u8],
        write: bool,
        start: u64,
        length: u64,
        pid: u32,
    ) -> Answer<()>
        ensures { Gives (λ _. tt) result self.new (image_lock self.old path.now write start length pid) }
    {
        self.tree.image_lock(path, write, start, length, pid)
    }
}
