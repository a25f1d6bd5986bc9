//! Pipes by inode number.

ghost use Rattle.std.specs.Prelude.{◌≡◌, ℕ, List, [], ◌∷◌, ◌++◌, ◌+◌, ◌≤◌, length, take, drop, OnOk, MatchOption};
ghost use Rattle.number_maps.specs.NumberMap.{IsAscending, after, after_key, put, removed};
ghost use Rattle.pipe_sock.specs.Pipes.{refilled, waiting};

use crate::pipe::Pipe;
use kernel_values::OutOfMemory;
use number_maps::entry_after;
use std::alloc::Global;
use std::collections::BTreeMap;
use std::marker::Model;

/// Pipes by inode number. A contract sees them by ascending number, each as the bytes that wait in it.
#[derive(Debug, Drop)]
pub struct Pipes {
    map: BTreeMap<u64, Pipe>,
}

impl Model for Pipes {
    ghost Value = { List (ℕ × List ℕ) };

    ghost view = { λ p. p.map.entries };
}

impl Pipes {
    /// No pipes.
    pub fn new(alloc: Global) -> Pipes
        ensures { result ≡ [] }
    {
        Pipes {
            map: BTreeMap::new(alloc),
        }
    }

    /// Makes an empty pipe with its whole room, in place of one that is there.
    pub fn add(&mut self, alloc: Global, inode: u64) -> Result<(), OutOfMemory>
        ensures { OnOk result (self.new ≡ put self.old inode []) }
    {
        let pipe = Pipe::new(alloc)?;
        match self.map.insert(inode, pipe) {
            Ok(_) => Ok(()),
            Err(_) => Err(OutOfMemory),
        }
    }

    /// Drops a pipe.
    pub fn remove(&mut self, inode: u64)
        ensures { self.new ≡ removed self.old inode }
    {
        let _pipe = self.map.remove(&inode);
    }

    /// How many bytes wait in a pipe.
    pub fn waiting(&self, inode: u64) -> u64
        ensures count { result ≡ length (waiting self.now inode) }
        ensures limit { result ≤ 65536 }
    {
        match self.map.get(&inode) {
            Some(pipe) => pipe.len(),
            None => 0,
        }
    }

    /// Moves the first bytes that wait, as many as `into` holds. It takes no memory.
    #[tactic(auto, unfolding(crate::specs::Pipes::refilled))]
    pub fn read(&mut self, inode: u64, into: &mut [u8])
        requires { length into.old ≤ length (waiting self.old inode) }
        ensures bytes { into.new ≡ take (length into.old) (waiting self.old inode) }
        ensures left { self.new ≡ refilled self.old inode (drop (length into.old) (waiting self.old inode)) }
    {
        match self.map.get_mut(&inode) {
            Some(pipe) => pipe.read(into),
            None => {}
        }
    }

    /// Puts bytes behind those that wait, where the pipe is there.
    #[tactic(auto, unfolding(crate::specs::Pipes::refilled))]
    pub(crate) fn append(&mut self, inode: u64, from: &[u8])
        requires { length (waiting self.old inode) + length from.now ≤ 65536 }
        ensures { self.new ≡ refilled self.old inode (waiting self.old inode ++ from.now) }
    {
        match self.map.get_mut(&inode) {
            Some(pipe) => pipe.write(from),
            None => {}
        }
    }

    /// The pipe after the last inode told, by ascending number, and the first where none was told.
    pub fn after(&self, inode: Option<u64>) -> Option<(u64, &Pipe)>
        ensures ascending { IsAscending self.now }
        ensures entry { MatchOption result (after self.now inode ≡ []) (λ e. after self.now inode ≡ (e.0, e.1.now) ∷ after_key self.now e.0) }
    {
        entry_after(&self.map, inode)
    }
}
