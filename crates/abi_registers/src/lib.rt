//! The registers of a 32-bit process at a system call, and the call's arguments in them: i386 by
//! `int 0x80`, and Arm EABI by `swi 0`.
#![tactic(auto)]

mod arguments;
mod registers;

pub use arguments::{Args, Form, from_words};
pub use registers::Registers;

#[cfg(test)]
mod tests;
