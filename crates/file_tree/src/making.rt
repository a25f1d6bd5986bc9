//! What calls make: files, directories and their names.

ghost use Rattle.std.specs.Prelude.{◌≡◌, ◌+◌, IfOk, OnOk};
ghost use Rattle.file_tree.specs.Making.{directory_mode, file_mode, made_node, next_inode, with_directory, with_file, with_inode_given, with_name};

use crate::state::{FileTree, Maker};
use file_tables::{Directory, Last, Node};
use kernel_values::{Attributes, NameText, OutOfMemory, TimeSpec};
use std::alloc::Global;

/// The mode word of a file that is made: S_IFREG of `include/uapi/linux/stat.h`, and the permission bits.
fn file_mode(mode: u32) -> u32
    ensures { result ≡ file_mode mode }
{
    0x8000 + mode % 0x1000
}

/// The mode word of a directory that is made: S_IFDIR of `include/uapi/linux/stat.h`, and the bits 0x3ff.
fn directory_mode(mode: u32) -> u32
    ensures { result ≡ directory_mode mode }
{
    0x4000 + mode % 0x400
}

/// The node of what a call makes.
fn made_node(maker: &Maker, mode: u32) -> Node
    ensures { result ≡ made_node maker.now mode }
{
    Node {
        attributes: Attributes {
            mode,
            uid: maker.uid,
            gid: maker.gid,
            accessed: maker.time,
            modified: maker.time,
            changed: maker.time,
        },
        has_name: true,
    }
}

impl FileTree {
    /// Gives the next inode number, to what stands in no directory. It takes no memory: an Err would say that no number is left.
    #[tactic(auto, unfolding(crate::specs::Making::next_inode, crate::specs::Making::with_inode_given))]
    pub fn take_inode(&mut self) -> Result<u64, OutOfMemory>
        ensures number { IfOk result (λ i. i ≡ next_inode self.old) }
        ensures after { OnOk result (self.new ≡ with_inode_given self.old) }
    {
        self.numbers.take()
    }

    /// Makes a name of an inode, at a time.
    pub(crate) fn add_name(
        &mut self,
        alloc: Global,
        now: TimeSpec,
        last: &Last<'_>,
        inode: u64,
    ) -> Result<(), OutOfMemory>
        ensures { OnOk result (self.new ≡ with_name self.old now (last.now.place, last.now.name.now) inode) }
    {
        let name = NameText::from_slice(alloc, last.name)?;
        self.directories.enter(last.place, name, inode)?;
        self.nodes.touch(last.place, now);
        Ok(())
    }

    /// Makes a file without bytes and its name, and gives its inode.
    #[tactic(auto, unfolding(crate::specs::Making::with_file, crate::specs::Making::next_inode))]
    pub fn add_file(
        &mut self,
        alloc: Global,
        maker: &Maker,
        last: &Last<'_>,
        mode: u32,
    ) -> Result<u64, OutOfMemory>
        ensures number { IfOk result (λ i. i ≡ next_inode self.old) }
        ensures after { OnOk result (self.new ≡ with_file self.old maker.now (last.now.place, last.now.name.now) mode) }
    {
        let inode = self.numbers.take()?;
        self.add_name(alloc, maker.time, last, inode)?;
        self.contents.add(alloc, inode)?;
        self.nodes.put(inode, made_node(maker, file_mode(mode)))?;
        Ok(inode)
    }

    /// Makes a directory without names, and its own name.
    #[tactic(auto, unfolding(crate::specs::Making::with_directory))]
    pub fn add_directory(
        &mut self,
        alloc: Global,
        maker: &Maker,
        last: &Last<'_>,
        mode: u32,
    ) -> Result<(), OutOfMemory>
        ensures { OnOk result (self.new ≡ with_directory self.old maker.now (last.now.place, last.now.name.now) mode) }
    {
        let inode = self.numbers.take()?;
        self.add_name(alloc, maker.time, last, inode)?;
        self.directories
            .put(inode, Directory::empty(alloc, last.place))?;
        self.nodes
            .put(inode, made_node(maker, directory_mode(mode)))
    }
}
