//! The tree at first, and what the image puts into it. The image's paths begin at the root.

ghost use Rattle.std.specs.Prelude.{◌≡◌, ◌≤◌, IfOk, OnOk, length};
ghost use Rattle.kernel_values.specs.Bounds.{most_file_bytes};
ghost use Rattle.kernel_values.specs.Outcome.{Gives, Tells, TellsAs};
ghost use Rattle.file_tree.specs.Image.{fresh_tree, has_bytes, image_bytes, image_directory, image_entry, image_file, image_inode, image_lock, image_node, image_parent, is_free_inode, is_free_name, with_image_directory, with_image_file, with_image_name};

use crate::contents::Contents;
use crate::locks::image_kind;
use crate::own_locks::OwnLocks;
use crate::state::FileTree;
use crate::status::NO_TIME;
use file_tables::{Directory, InodeNumbers, Last, Node, ROOT, Table};
use kernel_values::{
    Answer, Attributes, Errno, ItemList, KernelFault, MOST_FILE_BYTES, OutOfMemory,
};
use record_locks::ForeignLock;
use std::alloc::Global;

/// S_IFDIR and 0755.
const DIRECTORY_MODE: u32 = 0x41ed;
/// S_IFREG and 0644.
const FILE_MODE: u32 = 0x81a4;
/// The least inode number that a call may give.
const FIRST_NUMBER: u64 = 0x1000;

fn image_node(mode: u32) -> Node
    ensures { result ≡ image_node mode }
{
    Node {
        attributes: Attributes {
            mode,
            uid: 0,
            gid: 0,
            accessed: NO_TIME,
            modified: NO_TIME,
            changed: NO_TIME,
        },
        has_name: true,
    }
}

impl FileTree {
    /// The root alone, which is the working directory.
    #[tactic(auto, unfolding(crate::specs::Image::fresh_tree))]
    pub fn new(alloc: Global) -> Result<FileTree, OutOfMemory>
        ensures { IfOk result (λ s. s ≡ fresh_tree) }
    {
        let mut nodes = Table::new(alloc);
        nodes.put(ROOT, image_node(DIRECTORY_MODE))?;
        let mut directories = Table::new(alloc);
        directories.put(ROOT, Directory::empty(alloc, ROOT))?;
        Ok(FileTree {
            nodes,
            directories,
            contents: Contents::new(alloc),
            own_locks: OwnLocks::new(alloc),
            foreign_locks: ItemList::new(alloc),
            numbers: InodeNumbers {
                image: Table::new(alloc),
                next: FIRST_NUMBER,
            },
            working: ROOT,
        })
    }

    /// The steps of a path of the image to its last name, and that name. ENOENT for no path; ENAMETOOLONG; ENOTDIR; ENOENT.
    #[tactic(auto, unfolding(crate::specs::Image::image_parent))]
    fn image_parent<'a>(&self, path: &'a [u8]) -> Result<Last<'a>, Errno>
        ensures { TellsAs (λ l. (l.place, l.name.now)) result (image_parent self.now path.now) }
    {
        if path.is_empty() {
            return Err(Errno::NoEntry);
        }
        self.parent_from(ROOT, path)
    }

    /// The inode of a path of the image.
    #[tactic(auto, unfolding(crate::specs::Image::image_inode))]
    fn image_inode(&self, path: &[u8]) -> Result<u64, Errno>
        ensures { Tells result (image_inode self.now path.now) }
    {
        let last = self.image_parent(path)?;
        let entry = self.last_entry(&last, path)?;
        entry.ok_or(Errno::NoEntry)
    }

    /// Makes an inode and its name.
    fn add_image_name(
        &mut self,
        alloc: Global,
        last: &Last<'_>,
        inode: u64,
    ) -> Result<(), OutOfMemory>
        ensures { OnOk result (self.new ≡ with_image_name self.old (last.now.place, last.now.name.now) inode) }
    {
        self.numbers.image.put(inode, ())?;
        self.add_name(alloc, NO_TIME, last, inode)
    }

    #[tactic(auto, unfolding(crate::specs::Image::with_image_directory))]
    fn put_image_directory(
        &mut self,
        alloc: Global,
        last: &Last<'_>,
        inode: u64,
    ) -> Result<(), OutOfMemory>
        ensures { OnOk result (self.new ≡ with_image_directory self.old (last.now.place, last.now.name.now) inode) }
    {
        self.add_image_name(alloc, last, inode)?;
        self.directories
            .put(inode, Directory::empty(alloc, last.place))?;
        self.nodes.put(inode, image_node(DIRECTORY_MODE))
    }

    #[tactic(auto, unfolding(crate::specs::Image::with_image_file))]
    fn put_image_file(
        &mut self,
        alloc: Global,
        last: &Last<'_>,
        inode: u64,
        size: u64,
    ) -> Result<(), OutOfMemory>
        requires { size ≤ most_file_bytes }
        ensures { OnOk result (self.new ≡ with_image_file self.old (last.now.place, last.now.name.now) inode size) }
    {
        self.add_image_name(alloc, last, inode)?;
        self.contents.add_zeros(alloc, inode, size)?;
        self.nodes.put(inode, image_node(FILE_MODE))
    }

    /// Puts a directory of the image. ENOENT, ENOTDIR and ENAMETOOLONG where the steps to the last name are refused.
    pub fn image_directory(&mut self, alloc: Global, path: &[u8], inode: u64) -> Answer<()>
        ensures { Gives (λ _. tt) result self.new (image_directory self.old path.now inode) }
    {
        let last = self.image_parent(path)?;
        self.put_image_directory(alloc, &last, inode)?;
        Ok(())
    }

    /// Puts a file of the image, with `size` zeros. EFBIG above 2^40 bytes; ENOENT, ENOTDIR and ENAMETOOLONG
    /// where the steps to the last name are refused.
    pub fn image_file(&mut self, alloc: Global, path: &[u8], inode: u64, size: u64) -> Answer<()>
        ensures { Gives (λ _. tt) result self.new (image_file self.old path.now inode size) }
    {
        if size > MOST_FILE_BYTES {
            return Err(KernelFault::Errno(Errno::FileTooLarge));
        }
        let last = self.image_parent(path)?;
        self.put_image_file(alloc, &last, inode, size)?;
        Ok(())
    }

    /// Puts bytes into a file of the image, from an offset on. EFBIG where they end above 2^40; ENOENT, ENOTDIR
    /// and ENAMETOOLONG where the path is refused.
    pub fn image_bytes(
        &mut self,
        alloc: Global,
        path: &[u8],
        offset: u64,
        bytes: &[u8],
    ) -> Answer<()>
        ensures { Gives (λ _. tt) result self.new (image_bytes self.old path.now offset bytes.now) }
    {
        if offset > MOST_FILE_BYTES || bytes.len() as u64 > MOST_FILE_BYTES - offset {
            return Err(KernelFault::Errno(Errno::FileTooLarge));
        }
        let inode = self.image_inode(path)?;
        self.store(alloc, inode, offset, bytes)?;
        Ok(())
    }

    /// Puts a lock of the process `pid` on a file of the image: on `length` bytes from `start` on, or on all of them for
    /// length 0. ENOENT, ENOTDIR and ENAMETOOLONG where the path is refused; EOVERFLOW where it reaches past 2^63 - 1.
    pub fn image_lock(
        &mut self,
        path: &[u8],
        write: bool,
        start: u64,
        length: u64,
        pid: u32,
    ) -> Answer<()>
        ensures { Gives (λ _. tt) result self.new (image_lock self.old path.now write start length pid) }
    {
        let inode = self.image_inode(path)?;
        let lock = ForeignLock::new(inode, image_kind(write), start, length, pid)?;
        self.foreign_locks.push(lock)?;
        Ok(())
    }
}

impl FileTree {
    /// What the last name of a path means, if it is there. ENOENT; ENOTDIR; ENAMETOOLONG.
    #[tactic(auto, unfolding(crate::specs::Image::image_entry))]
    fn image_entry(&self, path: &[u8]) -> Result<Option<u64>, Errno>
        ensures { Tells result (image_entry self.now path.now) }
    {
        let last = self.image_parent(path)?;
        self.entry_at(&last)
    }

    /// Whether an inode is neither the root nor named by a line of the image.
    fn is_free_inode(&self, inode: u64) -> bool
        ensures { result ≡ is_free_inode self.now inode }
    {
        inode != ROOT && !self.numbers.image.has(inode)
    }

    /// Whether a line of the image may make this inode at this path: no line named it, the steps of the path to
    /// its last name succeed and lead to a directory, and that name isn't there.
    #[tactic(auto, unfolding(crate::specs::Image::is_free_name))]
    pub fn is_free_name(&self, path: &[u8], inode: u64) -> bool
        ensures { result ≡ is_free_name self.now path.now inode }
    {
        if !self.is_free_inode(inode) {
            return false;
        }
        match self.image_entry(path) {
            Ok(None) => true,
            Ok(Some(_)) | Err(_) => false,
        }
    }

    /// Whether a path means a file that has `count` bytes from an offset on.
    #[tactic(auto, unfolding(crate::specs::Image::has_bytes))]
    pub fn has_bytes(&self, path: &[u8], offset: u64, count: u64) -> bool
        ensures { result ≡ has_bytes self.now path.now offset count }
    {
        match self.image_inode(path) {
            Ok(inode) => self.contents.reaches(inode, offset, count),
            Err(_) => false,
        }
    }
}
