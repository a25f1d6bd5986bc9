//! What calls on files fetch and store for 32-bit processes, by the Linux UAPI headers for i386 and arm.
#![tactic(auto)]

pub mod descriptors;
pub mod directories;
pub mod locks;
pub mod polls;
pub mod positions;
pub mod stat;
pub mod stat64;
pub mod vectors;
mod words;

pub use descriptors::DescriptorPair;
pub use directories::{DirentFault, dirent_length, put_dirent};
pub use locks::{Lock32, Lock64};
pub use polls::{ByteCount, PollAnswer, PollEntry};
pub use positions::{Position32, Position64};
pub use stat::Stat32;
pub use stat64::Stat64;
pub use vectors::{IoVec32, IoVec64};

#[cfg(test)]
mod tests;
