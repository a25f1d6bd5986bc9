//! What calls on signals fetch and store for 32-bit processes, and the frames of handlers, by the Linux UAPI headers
//! `signal.h`, `siginfo.h`, `ucontext.h` and `sigcontext.h` for i386 and arm.
#![tactic(auto)]

pub mod actions;
pub mod arm;
pub mod ia32;
pub mod infos;
pub mod sets;
pub mod stacks;
mod words;

pub use actions::{Action32, OldAction32};
pub use arm::{ArmFrame, ArmPlainFrame};
pub use ia32::{Ia32Frame, Ia32PlainFrame};
pub use infos::SigInfo32;
pub use sets::{SignalSet32, SignalSet64};
pub use stacks::Stack32;

#[cfg(test)]
mod tests;
