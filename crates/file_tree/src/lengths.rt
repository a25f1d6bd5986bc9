//! The bytes and the lengths of files, and their times with them.

ghost use Rattle.std.specs.Prelude.{◌≡◌, ◌+◌, ◌≤◌, ◌++◌, length, take, drop, OnOk};
ghost use Rattle.kernel_values.specs.Bounds.{most_file_bytes};
ghost use Rattle.file_tree.specs.Lengths.{bytes_of, emptied, retimed, size_of, with_bytes, with_end, with_length, with_written};

use crate::state::FileTree;
use kernel_values::{FileTimes, OutOfMemory, TimeSpec};
use std::alloc::Global;

impl FileTree {
    /// How many bytes a file has. What is no file has none.
    pub fn size_of(&self, inode: u64) -> u64
        ensures size { result ≡ size_of self.now inode }
        ensures limit { result ≤ most_file_bytes }
    {
        self.contents.len(inode)
    }

    /// Appends bytes of a file, `count` from a place on.
    pub fn read(
        &self,
        inode: u64,
        start: u64,
        count: u64,
        out: &mut Vec<u8>,
    ) -> Result<(), OutOfMemory>
        requires { start + count ≤ size_of self.now inode }
        ensures { OnOk result (out.new.items ≡ out.old.items ++ take count (drop start (bytes_of self.now inode))) }
    {
        self.contents.read(inode, start, count, out)
    }

    /// Puts bytes into a file.
    pub(crate) fn store(
        &mut self,
        alloc: Global,
        inode: u64,
        start: u64,
        from: &[u8],
    ) -> Result<(), OutOfMemory>
        requires { start + length from.now ≤ most_file_bytes }
        ensures { OnOk result (self.new ≡ with_bytes self.old inode start from.now) }
    {
        self.contents.write(alloc, inode, start, from)
    }

    /// Puts bytes into a file at a time, which sets both of its times.
    #[tactic(auto, unfolding(crate::specs::Lengths::with_written))]
    pub fn write(
        &mut self,
        alloc: Global,
        now: TimeSpec,
        inode: u64,
        start: u64,
        from: &[u8],
    ) -> Result<(), OutOfMemory>
        requires { start + length from.now ≤ most_file_bytes }
        ensures { OnOk result (self.new ≡ with_written self.old now inode start from.now) }
    {
        self.store(alloc, inode, start, from)?;
        self.nodes.touch(inode, now);
        Ok(())
    }

    /// Takes the bytes of a file away. Its times stay.
    #[tactic(auto, unfolding(crate::specs::Lengths::emptied))]
    pub fn empty(&mut self, alloc: Global, inode: u64) -> Result<(), OutOfMemory>
        ensures { OnOk result (self.new ≡ emptied self.old inode) }
    {
        self.contents.add(alloc, inode)
    }

    /// Gives a file another length at a time, which sets both of its times, also where the length stays. It takes no memory.
    #[tactic(auto, unfolding(crate::specs::Lengths::with_length))]
    pub fn set_length(&mut self, now: TimeSpec, inode: u64, length: u64)
        requires { length ≤ most_file_bytes }
        ensures { self.new ≡ with_length self.old now inode length }
    {
        self.contents.set_length(inode, length);
        self.nodes.touch(inode, now);
    }

    /// Makes a file reach up to an end at least, where its length is to be raised. Its times stay. It takes no memory.
    #[tactic(auto, unfolding(crate::specs::Lengths::with_end))]
    pub fn raise_to(&mut self, raises: bool, inode: u64, end: u64)
        requires { end ≤ most_file_bytes }
        ensures { self.new ≡ with_end self.old raises inode end }
    {
        if raises && self.contents.len(inode) < end {
            self.contents.set_length(inode, end);
        }
    }

    /// Sets when a file or a directory was last read and when its bytes last changed, where it is there: to the times given, and to
    /// `now`, the real time, where none are. The time of the change is now in any case. It takes no memory.
    #[tactic(auto, unfolding(crate::specs::Lengths::retimed))]
    pub fn retime(&mut self, inode: u64, now: TimeSpec, times: Option<FileTimes>)
        ensures { self.new ≡ retimed self.old inode now times }
    {
        self.nodes.retime(inode, now, times);
    }
}
