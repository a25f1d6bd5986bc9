//! The calls of the kernel: each is its part's call on that part of the state.

mod clocks;
mod directories;
mod files;
mod identity;
mod lengths;
mod limits;
mod locks;
mod pipes;
mod readiness;
mod sending;
mod signals;
mod sockets;
mod status;
mod timers;
