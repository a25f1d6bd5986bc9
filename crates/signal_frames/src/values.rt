//! The types of values alone, so that the definitions may name them.

use abi_registers::Registers;
use signal_layouts::Stack32;

/// SIGSEGV, which ends a process whose frame can't be put or read.
pub(crate) const SEGMENTATION_FAULT: u32 = 11;

/// What a frame restores.
#[derive(Clone, Copy, Debug, PartialEq, Eq)]
pub struct Context {
    pub registers: Registers,
    /// The bits of the signals that are blocked.
    pub mask: u64,
    /// The alternate stack, of a frame with information.
    pub stack: Option<Stack32>,
}
