//! Reads and writes of what is no file: pipes and sockets.

ghost use Rattle.std.specs.Prelude.{◌≡◌, ◌+◌, ◌^◌, ◌<◌, ◌≤◌, true, length, take, IfOk, OnErr, OnOk, Ok};
ghost use Rattle.kernel_values.specs.Outcome.{Gives, GivesAlways, OnOutOfMemory, Tells, settled};
ghost use Rattle.open_files.specs.Transfers.{moves_bytes, place_of, read_pipe, receive_socket, with_bytes_taken, write_pipe, write_socket};
ghost use Rattle.pipe_sock.specs.Pipes.{waiting};
ghost use Rattle.socket_tables.specs.Receiving.{gives_bytes};
ghost use Rattle.socket_tables.specs.Sockets.{total_held};

use crate::kinds::is_of_rules;
use crate::state::{OpenFile, OpenFiles, Place};
use kernel_values::{Answer, Credentials, Errno, KernelFault, OutOfMemory};
use socket_tables::{Outgoing, Reception};
use std::alloc::Global;
use std::collections::LinkedList;

/// Where a transfer of a file begins. EINVAL below 0.
pub fn place_of(file: &OpenFile, place: Place) -> Result<u64, Errno>
    ensures { Tells result (place_of file.now place) }
{
    match place {
        Place::Current => Ok(file.position),
        Place::At(offset) => {
            if offset < 0 {
                return Err(Errno::InvalidArgument);
            }
            Ok(offset as u64)
        }
    }
}

/// Zeros to read bytes into. Only bytes take memory.
fn zeros(alloc: Global, count: u64) -> Result<Vec<u8>, OutOfMemory>
    ensures count { IfOk result (λ v. length v.items ≡ count) }
    ensures wanting { OnErr result (0 < count) }
{
    if count == 0 {
        return Ok(Vec::new(alloc));
    }
    match Vec::from_elem(alloc, 0, count as usize) {
        Ok(bytes) => Ok(bytes),
        Err(_) => Err(OutOfMemory),
    }
}

impl OpenFiles {
    /// Takes the first bytes that wait in a pipe. After want of memory they still wait.
    #[tactic(auto, using(crate::proofs::Pipings::some_taken))]
    fn take_bytes(&mut self, alloc: Global, inode: u64, count: u64) -> Result<Vec<u8>, OutOfMemory>
        requires { count ≤ length (waiting self.old.pipes inode) }
        ensures bytes { IfOk result (λ v. v.items ≡ take count (waiting self.old.pipes inode)) }
        ensures left { OnOk result (self.new ≡ with_bytes_taken self.old inode count) }
        ensures wanting { OnErr result (moves_bytes (Ok (take count (waiting self.old.pipes inode))) ≡ true) }
    {
        let mut bytes = zeros(alloc, count)?;
        self.pipes.read(inode, &mut bytes);
        Ok(bytes)
    }

    /// Reads a pipe. ESPIPE for a place in it; of its current bytes EAGAIN where none wait and an end is open for writing, and EFAULT
    /// where bytes wait and there is no room. Memory may be wanting only where bytes are read, and then they still wait.
    #[tactic(auto, unfolding(pipe_sock::specs::Pipes::read))]
    pub fn read_pipe(
        &mut self,
        alloc: Global,
        inode: u64,
        wanted: u64,
        room: u64,
        place: Place,
    ) -> Answer<Vec<u8>>
        ensures gives { Gives (λ v. v.items) result self.new (settled self.old (read_pipe self.old inode wanted room place)) }
        ensures count { IfOk result (λ v. length v.items ≤ wanted) }
        ensures space { IfOk result (λ v. length v.items ≤ room) }
        ensures moves { OnOutOfMemory result (moves_bytes (settled self.old (read_pipe self.old inode wanted room place)).0 ≡ true) }
    {
        match place {
            Place::Current => {
                let has_writer = self.has_writer(inode);
                let count = self.pipes.read_length(inode, wanted, room, has_writer)?;
                Ok(self.take_bytes(alloc, inode, count)?)
            }
            Place::At(_) => Err(KernelFault::Errno(Errno::IllegalSeek)),
        }
    }

    /// Writes a pipe. ESPIPE for a place in it; EPIPE where no end is open for reading; EAGAIN without room; EFAULT where bytes could
    /// be written and there is none. It takes no memory.
    pub fn write_pipe(&mut self, inode: u64, wanted: u64, piece: &[u8], place: Place) -> Answer<u64>
        ensures gives { GivesAlways (λ n. n) result self.new (settled self.old (write_pipe self.old inode wanted piece.now place)) }
        ensures count { IfOk result (λ n. n ≤ wanted) }
    {
        match place {
            Place::Current => {
                let has_reader = self.has_reader(inode);
                self.pipes.write(inode, wanted, piece, has_reader)
            }
            Place::At(_) => Err(KernelFault::Errno(Errno::IllegalSeek)),
        }
    }

    /// Receives on a socket, as `Sockets::receive` does. ESPIPE for a place in it; EOPNOTSUPP for a socket of rule tables.
    #[tactic(auto, unfolding(crate::specs::Transfers::receive_socket))]
    pub fn receive_socket(
        &mut self,
        alloc: Global,
        serial: u64,
        file: OpenFile,
        wanted: u64,
        room: u64,
        place: Place,
    ) -> Answer<Reception>
        ensures gives { Gives (λ r. r) result self.new (settled self.old (receive_socket self.old (serial, file) wanted room place)) }
        ensures count { IfOk result (λ r. length r.bytes ≤ wanted) }
        ensures space { IfOk result (λ r. length r.bytes ≤ room) }
        ensures few { IfOk result (λ r. length r.rights + total_held self.new.sockets.entries < 2 ^ 62) }
        ensures moves { OnOutOfMemory result (gives_bytes (settled self.old (receive_socket self.old (serial, file) wanted room place)).0 ≡ true) }
    {
        match place {
            Place::Current => {
                if is_of_rules(file.kind) {
                    return Err(KernelFault::Errno(Errno::OperationNotSupported));
                }
                self.sockets.receive(alloc, serial, wanted, room)
            }
            Place::At(_) => Err(KernelFault::Errno(Errno::IllegalSeek)),
        }
    }

    /// Writes to a socket, as `Sockets::send` does, to no address and with the credentials of the process. ESPIPE for a place in it;
    /// EOPNOTSUPP for a socket of rule tables.
    #[tactic(auto, unfolding(crate::specs::Transfers::write_socket))]
    pub fn write_socket(
        &mut self,
        alloc: Global,
        own: Credentials,
        serial: u64,
        file: OpenFile,
        wanted: u64,
        piece: &[u8],
        place: Place,
    ) -> Answer<u64>
        ensures gives { Gives (λ n. n) result self.new (settled self.old (write_socket self.old own (serial, file) wanted piece.now place)) }
        ensures count { IfOk result (λ n. n ≤ wanted) }
    {
        match place {
            Place::Current => {
                if is_of_rules(file.kind) {
                    return Err(KernelFault::Errno(Errno::OperationNotSupported));
                }
                let sent = Outgoing {
                    rights: LinkedList::new(alloc),
                    sender: own,
                };
                self.sockets.send(alloc, serial, wanted, piece, None, sent)
            }
            Place::At(_) => Err(KernelFault::Errno(Errno::IllegalSeek)),
        }
    }
}
