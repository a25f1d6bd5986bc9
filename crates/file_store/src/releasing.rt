//! What ends with a descriptor, and what with the last that holds an open file.

ghost use Rattle.std.specs.Prelude.{◌≡◌, ◌+◌, ◌<◌, ◌^◌, ◌++◌, [], length, unwrap_or};
ghost use Rattle.number_maps.specs.NumberMap.{at};
ghost use Rattle.file_store.specs.Releasing.{all_held, all_swept, ended, ended_as, held_in, let_go_of, released, without_locks};

use crate::state::Files;
use open_files::{OpenFile, is_of_pipe};
use std::collections::LinkedList;

impl Files {
    /// Drops the process's locks on the file that an open file is of.
    #[tactic(auto, unfolding(crate::specs::Releasing::without_locks))]
    pub(crate) fn drop_locks(&mut self, serial: u64)
        ensures { self.new ≡ without_locks self.old serial }
    {
        if let Some(file) = self.open_files.file_at(serial) {
            self.tree.drop_locks_on(file.inode);
        }
    }

    /// Lets go of what an open file was of.
    #[tactic(auto, unfolding(crate::specs::Releasing::let_go_of))]
    fn let_go_of(&mut self, file: OpenFile)
        ensures { self.new ≡ let_go_of self.old file }
    {
        if is_of_pipe(file.kind) {
            self.open_files.drain(file.inode);
        } else {
            let held = self.open_files.is_open(file.inode);
            self.tree.let_go(file.inode, held);
        }
    }

    /// Ends an open file, where there is one.
    fn end_file(&mut self, serial: u64)
        ensures { self.new ≡ ended_as self.old serial (at self.old.open_files.files serial) }
    {
        // Only what is there is taken out: so no fact on absent keys is needed.
        if let Some(file) = self.open_files.file_at(serial) {
            self.open_files.remove_open_file(serial);
            self.let_go_of(file);
        }
    }

    /// Ends an open file and its socket, and gives what the socket held.
    #[tactic(auto, unfolding(crate::specs::Releasing::ended), using(crate::proofs::Sweepings::sockets_stay))]
    fn end(&mut self, serial: u64) -> Option<LinkedList<u64>>
        ensures after { self.new ≡ ended self.old serial }
        ensures held { unwrap_or result [] ≡ held_in self.old serial }
        ensures total { length (held_in self.old serial) + all_held self.new ≡ all_held self.old }
        ensures few { all_held self.old < 2 ^ 62 }
    {
        self.end_file(serial);
        self.open_files.take_socket(serial)
    }

    /// Ends an open file and its socket, and puts what the socket held behind other candidates.
    fn end_before(&mut self, serial: u64, candidates: &mut LinkedList<u64>)
        requires { length candidates.old + all_held self.old < 2 ^ 62 }
        ensures after { self.new ≡ ended self.old serial }
        ensures held { candidates.new ≡ candidates.old ++ held_in self.old serial }
        ensures total { length (held_in self.old serial) + all_held self.new ≡ all_held self.old }
    {
        if let Some(held) = self.end(serial) {
            let mut held = held;
            if candidates.append(&mut held).is_err() {
                unreachable!();
            }
        }
    }

    /// Ends those of some open files that nothing holds any more, and in the same way what they held. It takes no memory.
    #[tactic(auto, using(crate::proofs::Sweepings::nothing_swept, crate::proofs::Sweepings::one_lasts, crate::proofs::Sweepings::one_ends))]
    pub(crate) fn sweep(&mut self, candidates: LinkedList<u64>)
        requires { length candidates + all_held self.old < 2 ^ 62 }
        ensures { self.new ≡ all_swept self.old candidates }
    {
        let mut left = candidates;
        while let Some(serial) = left.pop_front() {
            if !self.open_files.is_held(serial) {
                self.end_before(serial, &mut left);
            }
        }
    }

    /// Ends an open file that nothing holds any more, and in the same way what its socket held. It takes no memory.
    #[tactic(auto, unfolding(crate::specs::Releasing::released), using(crate::proofs::Sweepings::nothing_swept))]
    pub(crate) fn release(&mut self, serial: u64)
        ensures { self.new ≡ released self.old serial }
    {
        if self.open_files.is_held(serial) {
            return;
        }
        if let Some(held) = self.end(serial) {
            self.sweep(held);
        }
    }
}
