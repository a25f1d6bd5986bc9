//! What a socket is ready for, and how many bytes wait in it.

ghost use Rattle.std.specs.Prelude.{◌≡◌, ◌≤◌};
ghost use Rattle.socket_tables.specs.Readiness.{bytes_waiting, has_hung_up, has_input, has_output};

use crate::meeting::{is_connected, is_listening};
use crate::sockets::{Sockets, is_stream};
use crate::state::Socket;

/// PIPE_BUF, by `include/uapi/linux/limits.h`: where so many bytes are free at its peer, a socket has output.
const PIPE_BUF: usize = 4096;

impl Sockets {
    /// POLLIN: a connection waits, or a receive of one byte wouldn't answer EAGAIN.
    #[tactic(auto, unfolding(crate::specs::Readiness::has_input))]
    pub fn has_input(&self, socket: &Socket) -> bool
        ensures { result ≡ has_input self.now socket.now }
    {
        if is_listening(socket) {
            return !socket.waiting.is_empty();
        }
        if !socket.queue.is_empty() {
            return true;
        }
        if is_stream(socket) && !is_connected(socket) {
            return true;
        }
        self.is_at_end(socket)
    }

    /// POLLOUT: 4,096 bytes and one message are free at the peer, or it doesn't live. A listening socket has none.
    #[tactic(auto, unfolding(crate::specs::Readiness::has_output))]
    pub fn has_output(&self, socket: &Socket) -> bool
        ensures { result ≡ has_output self.now socket.now }
    {
        if is_listening(socket) {
            return false;
        }
        match self.peer_of(socket) {
            Some(peer) => peer.queue.free_room() >= PIPE_BUF,
            None => true,
        }
    }

    /// POLLHUP: the peer of a stream is gone.
    #[tactic(auto, unfolding(crate::specs::Readiness::has_hung_up))]
    pub fn has_hung_up(&self, socket: &Socket) -> bool
        ensures { result ≡ has_hung_up self.now socket.now }
    {
        is_stream(socket) && is_connected(socket) && self.peer_of(socket).is_none()
    }
}

impl Socket {
    /// FIONREAD: all bytes that wait in a stream, or those of a datagram socket's first message.
    #[tactic(auto, unfolding(crate::specs::Readiness::bytes_waiting), using(crate::proofs::Receivings::first_within))]
    pub fn bytes_waiting(&self) -> u32
        ensures { result ≡ bytes_waiting self.now }
    {
        let waiting = self.queue.waiting_bytes();
        if is_stream(self) {
            return waiting as u32;
        }
        match self.queue.first_length() {
            Some(count) => count as u32,
            None => 0,
        }
    }
}
