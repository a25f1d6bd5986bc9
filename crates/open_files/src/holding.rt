//! Which inodes open files hold, and what holds an open file.

ghost use Rattle.std.specs.Prelude.{◌≡◌, ◌==◌, ◌&&◌};
ghost use Rattle.open_files.specs.Holding.{has_reader, has_writer, is_held, is_open, names};
ghost use Rattle.open_files.specs.Kinds.{is_reader, is_writer};

use crate::kinds::{is_reader, is_writer};
use crate::state::{OpenFile, OpenFiles};

/// Whether an open file is the end of a pipe that is read from.
fn reads_pipe(file: &OpenFile, inode: u64) -> bool
    ensures { result ≡ ((file.now.inode == inode) && is_reader file.now.kind) }
{
    file.inode == inode && is_reader(file.kind)
}

/// Whether an open file is the end of a pipe that is written to.
fn writes_pipe(file: &OpenFile, inode: u64) -> bool
    ensures { result ≡ ((file.now.inode == inode) && is_writer file.now.kind) }
{
    file.inode == inode && is_writer(file.kind)
}

impl OpenFiles {
    /// Whether some descriptor names an open file. One look-up for each descriptor.
    #[tactic(auto, using(crate::proofs::Holdings::no_name, number_maps::proofs::Steps::fewer_left))]
    fn names(&self, serial: u64) -> bool
        ensures { result ≡ names self.now.descriptors serial }
    {
        let mut last = None;
        while let Some((number, descriptor)) = self.descriptors.after(last) {
            if descriptor.serial == serial {
                return true;
            }
            last = Some(number);
        }
        false
    }

    /// Whether something holds an open file, so that it lasts: a descriptor that names it, a message that waits and carries it, or a
    /// listening socket in which it waits. One look-up for each descriptor, and one pass over what sockets hold.
    #[tactic(auto, unfolding(crate::specs::Holding::is_held))]
    pub fn is_held(&self, serial: u64) -> bool
        ensures { result ≡ is_held self.now serial }
    {
        self.names(serial) || self.sockets.hold(serial)
    }

    /// Whether some open file has an inode. One look-up for each open file.
    #[tactic(auto, using(crate::proofs::Holdings::none_open, number_maps::proofs::Steps::fewer_left))]
    pub fn is_open(&self, inode: u64) -> bool
        ensures { result ≡ is_open self.now.files inode }
    {
        let mut last = None;
        while let Some((serial, file)) = self.files.after(last) {
            if file.inode == inode {
                return true;
            }
            last = Some(serial);
        }
        false
    }

    /// Whether some open file is the end of a pipe that is read from.
    #[tactic(auto, using(crate::proofs::Holdings::no_reader, number_maps::proofs::Steps::fewer_left))]
    pub(crate) fn has_reader(&self, inode: u64) -> bool
        ensures { result ≡ has_reader self.now.files inode }
    {
        let mut last = None;
        while let Some((serial, file)) = self.files.after(last) {
            if reads_pipe(file, inode) {
                return true;
            }
            last = Some(serial);
        }
        false
    }

    /// Whether some open file is the end of a pipe that is written to.
    #[tactic(auto, using(crate::proofs::Holdings::no_writer, number_maps::proofs::Steps::fewer_left))]
    pub(crate) fn has_writer(&self, inode: u64) -> bool
        ensures { result ≡ has_writer self.now.files inode }
    {
        let mut last = None;
        while let Some((serial, file)) = self.files.after(last) {
            if writes_pipe(file, inode) {
                return true;
            }
            last = Some(serial);
        }
        false
    }
}
