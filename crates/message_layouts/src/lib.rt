//! What calls on sockets and messages fetch and store for 32-bit processes, by the Linux UAPI headers for i386 and arm: the shapes of
//! their headers, control messages in both layouts, and the addresses of Unix sockets.
#![tactic(auto)]

pub mod addresses;
pub mod contents;
pub mod controls;
pub mod credentials;
pub mod headers;
pub mod laws;
pub mod native_controls;
mod words;

pub use addresses::{ADDRESS_ROOM, address_in, address_out};
pub use contents::{
    SCM_CREDENTIALS, SCM_RIGHTS, SOL_SOCKET, credentials_in, right_at, rights_count,
};
pub use controls::{controls_size, translate};
pub use credentials::CompatCredentials;
pub use headers::{MessageHeader, SignedWord32};
pub use laws::{address_is_read_back, spelled_are_read_back, told_are_theirs};
pub use native_controls::{NativeControl, NativeControls};

#[cfg(test)]
mod tests;
