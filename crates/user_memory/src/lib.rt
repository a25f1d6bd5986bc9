//! User memory of a 32-bit process: pages with rights, stores whole or not at all, and the bytes
//! that changed.
#![tactic(auto)]

mod change;
mod memory;
mod page;
mod pages;
mod rights;
mod search;
mod text;

pub use change::Change;
pub use memory::{Fault, MapFault, UserMemory};
pub use rights::Rights;
pub use text::TextFault;

#[cfg(test)]
mod tests;
