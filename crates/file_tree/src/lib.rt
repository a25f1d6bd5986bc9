//! Files and directories by inode number: their names, bytes, times and locks, and the working directory. What a call does to them
//! is an operation here, told which inode it is about.
#![tactic(auto)]

mod contents;
mod image;
mod items;
mod lengths;
mod listing;
mod locks;
mod making;
mod own_locks;
mod paths;
mod removing;
mod renaming;
mod state;
mod status;
mod working;

pub use contents::Contents;
pub use items::TreeCursor;
pub use own_locks::OwnLocks;
pub use renaming::{is_fixed, is_same};
pub use state::{FileTree, Maker};
pub use status::nameless_status;
