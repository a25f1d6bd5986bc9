//! Unix sockets (`unix(7)`) by the serial numbers of their open files: their names, how they meet, and the messages that go between them.
//! No descriptor, inode or open file is known here.
#![tactic(auto)]

mod items;
mod meeting;
mod names;
mod naming;
mod readiness;
mod receiving;
mod sending;
mod sockets;
mod state;

pub use items::{SocketPart, state_told};
pub use receiving::Reception;
pub use sending::Outgoing;
pub use sockets::Sockets;
pub use state::{Meeting, Socket, SocketStatus};
