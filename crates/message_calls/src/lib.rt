//! The calls on Unix sockets: how they are made, named and brought together.
#![tactic(auto)]

pub mod accepting;
mod choice;
mod fetching;
pub mod making;
pub mod meeting;
pub mod naming;

pub use choice::serve_socket;
