//! What an open file is ready for, and how many bytes wait to be read from it.

ghost use Rattle.std.specs.Prelude.{◌≡◌};
ghost use Rattle.kernel_values.specs.Outcome.{Tells};
ghost use Rattle.open_files.specs.Readiness.{ready, ready_for, ready_of, ready_of_socket, bytes_in_socket, waiting_bytes, waiting_in};
ghost use Rattle.number_maps.specs.NumberMap.{at};

use crate::state::OpenFiles;
use kernel_values::{Errno, OpenKind};

/// PIPE_BUF, by `include/uapi/linux/limits.h`: where so many bytes are free, a pipe has output.
const PIPE_BUF: u64 = 4096;

/// What poll(2) tells of an open file.
#[derive(Clone, Copy, Debug, PartialEq, Eq)]
pub struct Ready {
    /// POLLIN: a read doesn't answer EAGAIN.
    pub input: bool,
    /// POLLOUT: a write of PIPE_BUF bytes doesn't.
    pub output: bool,
    /// POLLERR: nothing is open to read what would be written.
    pub error: bool,
    /// POLLHUP: nothing is open to write what would be read.
    pub hang_up: bool,
}

/// What is ready, in the order of the fields.
fn ready_for(input: bool, output: bool, error: bool, hang_up: bool) -> Ready
    ensures { result ≡ ready_for input output error hang_up }
{
    Ready {
        input,
        output,
        error,
        hang_up,
    }
}

impl OpenFiles {
    /// What a socket is ready for.
    fn ready_of_socket(&self, serial: u64) -> Ready
        ensures { result ≡ ready_of_socket self.now.sockets (at self.now.sockets.entries serial) }
    {
        match self.sockets.get(serial) {
            Some(socket) => {
                let input = self.sockets.has_input(socket);
                let output = self.sockets.has_output(socket);
                ready_for(input, output, false, self.sockets.has_hung_up(socket))
            }
            None => ready_for(false, false, false, false),
        }
    }

    #[tactic(auto, unfolding(crate::specs::Readiness::ready_of))]
    fn ready_of(&self, serial: u64, inode: u64, kind: OpenKind) -> Ready
        ensures { result ≡ ready_of self.now serial inode kind }
    {
        match kind {
            OpenKind::File | OpenKind::Directory => ready_for(true, true, false, false),
            OpenKind::PipeRead => {
                let input = self.pipes.waiting(inode) > 0;
                ready_for(input, false, false, !self.has_writer(inode))
            }
            OpenKind::PipeWrite => {
                let output = self.pipes.free_room(inode) >= PIPE_BUF;
                ready_for(false, output, !self.has_reader(inode), false)
            }
            OpenKind::Stream | OpenKind::Datagram => self.ready_of_socket(serial),
            OpenKind::RuleSocket => ready_for(false, true, false, false),
        }
    }

    /// What a descriptor is ready for. EBADF where it isn't open. It takes no memory.
    #[tactic(auto, unfolding(crate::specs::Readiness::ready))]
    pub fn ready(&self, fd: i64) -> Result<Ready, Errno>
        ensures { Tells result (ready self.now fd) }
    {
        let (serial, file) = self.open_file(fd)?;
        Ok(self.ready_of(serial, file.inode, file.kind))
    }

    /// How many bytes wait in a socket.
    fn bytes_in_socket(&self, serial: u64) -> Result<u32, Errno>
        ensures { Tells result (bytes_in_socket (at self.now.sockets.entries serial)) }
    {
        match self.sockets.get(serial) {
            Some(socket) => Ok(socket.bytes_waiting()),
            None => Err(Errno::NotTerminal),
        }
    }

    #[tactic(auto, unfolding(crate::specs::Readiness::waiting_in))]
    fn waiting_in(&self, serial: u64, inode: u64, kind: OpenKind) -> Result<u32, Errno>
        ensures { Tells result (waiting_in self.now serial inode kind) }
    {
        match kind {
            OpenKind::PipeRead | OpenKind::PipeWrite => Ok(self.pipes.waiting(inode) as u32),
            OpenKind::Stream | OpenKind::Datagram => self.bytes_in_socket(serial),
            OpenKind::File | OpenKind::Directory | OpenKind::RuleSocket => Err(Errno::NotTerminal),
        }
    }

    /// FIONREAD: how many bytes wait in a pipe, at either of its ends, or in a Unix socket: in a stream all of them, in a datagram socket
    /// those of the first message. EBADF; ENOTTY for all else. It takes no memory.
    #[tactic(auto, unfolding(crate::specs::Readiness::waiting_bytes))]
    pub fn waiting_bytes(&self, fd: i64) -> Result<u32, Errno>
        ensures { Tells result (waiting_bytes self.now fd) }
    {
        let (serial, file) = self.open_file(fd)?;
        self.waiting_in(serial, file.inode, file.kind)
    }
}
