//! The bytes that wait in pipes.
#![tactic(auto)]

mod pipe;
mod pipes;
mod transfers;

pub use pipe::Pipe;
pub use pipes::Pipes;

#[cfg(test)]
mod tests;
