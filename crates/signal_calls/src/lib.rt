//! The calls on signals and on the interval timer, but the returns from handlers. They take no memory.
#![tactic(auto)]

pub mod actions;
mod choice;
pub mod masks;
pub mod sending;
mod sets;
pub mod stacks;
pub mod timers;

pub use choice::serve_signal;
