//! The messages that wait in one Unix socket, with the open files that they carry (`unix(7)`).
#![tactic(auto)]

mod laws;
mod message;
mod names;
mod queue;
mod stream;

pub use laws::{bytes_come_once, rights_come_once, stream_stops_before_rights, wanted_bytes_come};
pub use message::{Message, MessageBytes};
pub use names::SocketName;
pub use queue::MessageQueue;
