//! The delivery of signals to handlers, and the returns from them.
#![tactic(auto)]

mod delivery;
mod frames;
mod handlers;
mod places;
mod returns;
mod values;

pub use delivery::deliver_all;
pub use frames::told_stack;
pub use returns::{rt_sigreturn, sigreturn};
pub use values::Context;
