//! `accept(2)` and accept4: a connection that waits gets a descriptor.

ghost use Rattle.std.specs.Prelude.{◌≡◌, IfOk, IsSome, OnOk};
ghost use Rattle.kernel_values.specs.Outcome.{Foretells, Gives, Tells};
ghost use Rattle.number_maps.specs.NumberMap.{at};
ghost use Rattle.open_files.specs.Accepting.{accept, acceptance, accepted, unblocked_as};

use crate::kinds::is_of_rules;
use crate::piping::{NONBLOCK, is_pipe_flags, marks_close};
use crate::state::{Descriptor, OpenFile, OpenFiles};
use bitflags::Flags;
use kernel_values::{Answer, Errno, Name, OpenFlags, OutOfMemory};

/// What accept answers.
#[derive(Debug, Drop)]
pub struct Accepted {
    /// The new descriptor.
    pub number: u32,
    /// The name that the peer has now. It has no byte where the peer is unnamed or gone.
    pub peer: Name,
}

/// What an accept would do.
#[derive(Debug, Drop)]
pub struct Acceptance {
    /// The listening socket, and the connection that waited longest in it, by serial number.
    pub listener: u64,
    pub connection: u64,
    pub told: Accepted,
}

impl OpenFiles {
    #[tactic(auto, unfolding(crate::specs::Accepting::acceptance))]
    fn acceptance(&self, limit: u32, fd: i64, flags: u32) -> Result<Acceptance, Errno>
        ensures { Tells result (acceptance self.now limit fd flags) }
    {
        let (listener, file) = self.open_file(fd)?;
        let number = self.free_number(0, limit)?;
        if self.is_full() {
            return Err(Errno::TableFull);
        }
        if is_of_rules(file.kind) {
            return Err(Errno::OperationNotSupported);
        }
        let socket = self.sockets.socket(listener)?;
        if !is_pipe_flags(flags) {
            return Err(Errno::InvalidArgument);
        }
        let connection = socket.first_connection()?;
        let peer = self.sockets.peer_called(connection);
        Ok(Acceptance {
            listener,
            connection,
            told: Accepted { number, peer },
        })
    }

    /// Gives an open file `O_NONBLOCK`, where that is asked for and the open file is there.
    fn unblock(&mut self, serial: u64, flags: u32)
        ensures { self.new ≡ unblocked_as self.old serial flags (at self.old.files serial) }
    {
        if let Some(file) = self.file_at(serial) {
            let bits = file.flags.bits() | (flags & NONBLOCK);
            let flags = OpenFlags::from_bits_retain(bits);
            self.change_open_file(serial, OpenFile { flags, ..file });
        }
    }

    #[tactic(auto, unfolding(crate::specs::Accepting::accepted))]
    fn take_connection(&mut self, a: &Acceptance, flags: u32) -> Result<(), OutOfMemory>
        ensures { OnOk result (self.new ≡ accepted self.old a.now flags) }
    {
        self.sockets.take_connection(a.listener);
        let descriptor = Descriptor {
            serial: a.connection,
            cloexec: marks_close(flags),
        };
        self.set_descriptor(a.told.number, descriptor)?;
        self.unblock(a.connection, flags);
        Ok(())
    }

    /// What `accept` would answer. It takes no memory and changes nothing.
    pub fn would_accept(&self, limit: u32, fd: i64, flags: u32) -> Result<Accepted, Errno>
        ensures { Foretells result self.now (accept self.now limit fd flags) }
    {
        let acceptance = self.acceptance(limit, fd, flags)?;
        Ok(acceptance.told)
    }

    /// accept, with `flags` 0, and accept4: the connection that has waited longest at a listening socket gets the lowest free descriptor
    /// below `limit`, the soft limit of descriptors. It has `O_NONBLOCK`, 0x800, and the close-on-exec mark of `O_CLOEXEC`, 0x80000, where
    /// `flags` has these.
    ///
    /// EBADF; EMFILE; ENFILE where fewer than four things are left to make; EOPNOTSUPP for a socket of rule tables; ENOTSOCK; EINVAL for other
    /// flags; EOPNOTSUPP for a datagram socket; EINVAL where it isn't listening; EAGAIN where no connection waits.
    pub fn accept(&mut self, limit: u32, fd: i64, flags: u32) -> Answer<Accepted>
        ensures { Gives (λ a. a) result self.new (accept self.old limit fd flags) }
    {
        let acceptance = self.acceptance(limit, fd, flags)?;
        self.take_connection(&acceptance, flags)?;
        Ok(acceptance.told)
    }
}
