//! What is told of a file or a directory, and of what has no name.

ghost use Rattle.std.specs.Prelude.{◌≡◌, ◌≤◌};
ghost use Rattle.kernel_values.specs.Bounds.{most_file_bytes};
ghost use Rattle.kernel_values.specs.Outcome.{Tells};
ghost use Rattle.file_tree.specs.Status.{inode_status, links_of, nameless_status, status_with};

use crate::state::{FileTree, Maker};
use file_tables::Node;
use kernel_values::{Attributes, Errno, Stat, TimeSpec};

/// The device that all files are on.
const DEVICE: u64 = 1;
/// Bytes that are best moved at once: a page.
const PAGE: u32 = 4096;
/// How many blocks of 512 bytes a page takes.
const PAGE_BLOCKS: u64 = 8;

/// The times of what the image makes, and of what has none.
pub(crate) const NO_TIME: TimeSpec = TimeSpec {
    seconds: 0,
    nanos: 0,
};

/// What is told of an inode with these links and this size, in so many blocks of 512 bytes.
fn status_with(inode: u64, attributes: &Attributes, links: u32, size: u64, blocks: u64) -> Stat
    requires { size ≤ most_file_bytes }
    ensures { result ≡ status_with inode attributes.now links size blocks }
{
    Stat {
        dev: DEVICE,
        ino: inode,
        mode: attributes.mode,
        nlink: links,
        uid: attributes.uid,
        gid: attributes.gid,
        rdev: 0,
        size: size as i64,
        blksize: PAGE,
        blocks,
        atime: attributes.accessed,
        mtime: attributes.modified,
        ctime: attributes.changed,
    }
}

/// What is told of what stands in no directory, as a pipe, of a mode: it belongs to the owner of the process, and has one link, no
/// bytes and no times.
pub fn nameless_status(owner: &Maker, mode: u32, inode: u64) -> Stat
    ensures { result ≡ nameless_status owner.now mode inode }
{
    let attributes = Attributes {
        mode,
        uid: owner.uid,
        gid: owner.gid,
        accessed: NO_TIME,
        modified: NO_TIME,
        changed: NO_TIME,
    };
    status_with(inode, &attributes, 1, 0, 0)
}

impl FileTree {
    /// How many names an inode has.
    #[tactic(auto, unfolding(crate::specs::Status::links_of))]
    fn links_of(&self, inode: u64, node: &Node) -> u32
        ensures { result ≡ links_of self.now inode node.now }
    {
        match self.directories.get(inode) {
            Some(directory) => self.directories.directory_links(directory),
            None if node.has_name => 1,
            None => 0,
        }
    }

    /// What is told of a file or a directory. The size is in bytes, and a page of 4,096 bytes takes 8 blocks where it holds a byte
    /// other than 0. ENOENT. It takes no memory.
    #[tactic(auto, unfolding(crate::specs::Status::inode_status))]
    pub fn inode_status(&self, inode: u64) -> Result<Stat, Errno>
        ensures { Tells result (inode_status self.now inode) }
    {
        let node = self.nodes.get(inode).ok_or(Errno::NoEntry)?;
        let links = self.links_of(inode, node);
        let size = self.size_of(inode);
        let blocks = PAGE_BLOCKS * self.contents.filled_pages(inode);
        Ok(status_with(inode, &node.attributes, links, size, blocks))
    }
}
