//! Control messages between a 32-bit process and the kernel's own layout: those that are sent, in the region, and those that are told of what was
//! received.
#![tactic(auto)]

mod incoming;
mod laws;
mod outgoing;
mod spans;

pub use incoming::controls_in;
pub use laws::ample_room_tells_all;
pub use outgoing::{ControlsOut, controls_out};

#[cfg(test)]
mod tests;
