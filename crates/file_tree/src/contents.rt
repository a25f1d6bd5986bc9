//! The bytes of files, by inode number.

ghost use Rattle.std.specs.Prelude.{◌≡◌, ℕ, List, [], ◌+◌, ◌≤◌, ◌^◌, ◌++◌, length, take, drop, replicate, OnOk, IfSome, MatchOption, ◌∷◌};
ghost use Rattle.file_bytes.specs.Filled.{filled_pages};
ghost use Rattle.file_bytes.specs.Runs.{runs_from};
ghost use Rattle.number_maps.specs.NumberMap.{at, put, removed};
ghost use Rattle.kernel_values.specs.Bounds.{most_file_bytes};
ghost use Rattle.file_tree.specs.Contents.{content_of, overwritten, reaches, relengthened};

use file_bytes::{Content, Run};
use kernel_values::OutOfMemory;
use std::alloc::Global;
use std::collections::BTreeMap;
use std::marker::Model;

/// The bytes of files, by inode number. An inode that isn't there has none.
#[derive(Debug, Drop)]
pub struct Contents {
    map: BTreeMap<u64, Content>,
}

impl Model for Contents {
    ghost use Rattle.std.specs.Prelude.{ℕ, List};

    ghost Value = { List (ℕ × List ℕ) };

    ghost view = { λ c. c.map.entries };
}

impl Contents {
    /// No files.
    pub fn new(alloc: Global) -> Contents
        ensures { result ≡ [] }
    {
        Contents {
            map: BTreeMap::new(alloc),
        }
    }

    /// Adds a file without bytes, in place of one that is there.
    pub(crate) fn add(&mut self, alloc: Global, inode: u64) -> Result<(), OutOfMemory>
        ensures { OnOk result (self.new ≡ put self.old inode []) }
    {
        match self.map.insert(inode, Content::new(alloc)) {
            Ok(_) => Ok(()),
            Err(_) => Err(OutOfMemory),
        }
    }

    /// Adds a file of zeros.
    pub(crate) fn add_zeros(
        &mut self,
        alloc: Global,
        inode: u64,
        size: u64,
    ) -> Result<(), OutOfMemory>
        requires { size ≤ most_file_bytes }
        ensures { OnOk result (self.new ≡ put self.old inode (replicate size 0)) }
    {
        match self.map.insert(inode, Content::zeros(alloc, size)) {
            Ok(_) => Ok(()),
            Err(_) => Err(OutOfMemory),
        }
    }

    /// Drops a file.
    pub(crate) fn remove(&mut self, inode: u64)
        ensures { self.new ≡ removed self.old inode }
    {
        let _content = self.map.remove(&inode);
    }

    /// How many bytes a file has.
    pub fn len(&self, inode: u64) -> u64
        ensures len { result ≡ length (content_of self.now inode) }
        ensures limit { result ≤ most_file_bytes }
    {
        match self.map.get(&inode) {
            Some(content) => content.len(),
            None => 0,
        }
    }

    /// How many pages of 4,096 bytes of a file hold a byte other than 0.
    #[tactic(auto, using(crate::proofs::FileItems::no_filled_pages))]
    pub(crate) fn filled_pages(&self, inode: u64) -> u64
        ensures count { result ≡ filled_pages (content_of self.now inode) }
        ensures limit { result ≤ 2 ^ 28 }
    {
        match self.map.get(&inode) {
            Some(content) => content.filled_pages(),
            None => 0,
        }
    }

    /// The first run of a file's bytes other than 0 within one page of 4,096 bytes, at or after an offset.
    #[tactic(auto, using(crate::proofs::FileItems::no_runs))]
    pub(crate) fn next_run(&self, inode: u64, from: u64) -> Option<Run>
        ensures next { MatchOption result
            (runs_from (content_of self.now inode) from ≡ [])
            (λ r. runs_from (content_of self.now inode) from ≡
            (r.at, take r.length (drop r.at (content_of self.now inode))) ∷ runs_from (content_of self.now inode) (r.at + r.length)) }
        ensures within { IfSome result (λ r. r.at + r.length ≤ length (content_of self.now inode)) }
        ensures limit { IfSome result (λ r. r.at + r.length ≤ most_file_bytes) }
    {
        match self.map.get(&inode) {
            Some(content) => {
                // A file has at most 2^40 bytes, so that a run's end is a number.
                let _size = content.len();
                content.next_run(from)
            }
            None => None,
        }
    }

    /// Whether a file is there and has `count` bytes from an offset on.
    pub(crate) fn reaches(&self, inode: u64, offset: u64, count: u64) -> bool
        ensures { result ≡ reaches (at self.now inode) (offset + count) }
    {
        match self.map.get(&inode) {
            Some(content) => offset <= content.len() && count <= content.len() - offset,
            None => false,
        }
    }

    /// Appends a part of the bytes of a file.
    pub fn read(
        &self,
        inode: u64,
        from: u64,
        count: u64,
        out: &mut Vec<u8>,
    ) -> Result<(), OutOfMemory>
        requires { from + count ≤ length (content_of self.now inode) }
        ensures { OnOk result (out.new.items ≡ out.old.items ++ take count (drop from (content_of self.now inode))) }
    {
        match self.map.get(&inode) {
            Some(content) => content.read(from, count, out),
            None => Ok(()),
        }
    }

    /// Writes bytes of a file, where it is there.
    #[tactic(auto, unfolding(crate::specs::Contents::overwritten))]
    pub(crate) fn write(
        &mut self,
        alloc: Global,
        inode: u64,
        start: u64,
        from: &[u8],
    ) -> Result<(), OutOfMemory>
        requires { start + length from.now ≤ most_file_bytes }
        ensures { OnOk result (self.new ≡ overwritten self.old inode start from.now) }
    {
        match self.map.get_mut(&inode) {
            Some(content) => content.write(alloc, start, from),
            None => Ok(()),
        }
    }

    /// Gives a file another length, where it is there. It takes no memory.
    #[tactic(auto, unfolding(crate::specs::Contents::relengthened))]
    pub(crate) fn set_length(&mut self, inode: u64, length: u64)
        requires { length ≤ most_file_bytes }
        ensures { self.new ≡ relengthened self.old inode length }
    {
        if let Some(content) = self.map.get_mut(&inode) {
            content.set_length(length);
        }
    }
}
