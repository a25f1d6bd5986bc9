//! The types of the state alone, so that the definitions may name them.

ghost use Rattle.std.specs.Prelude.{slice_get};
ghost use Rattle.native_kernel.specs.LimitState.{AllowsFew, LimitState};

use file_store::Files;
use kernel_values::{End, Limit, Usage};
use signal_clock::{Clocks, Signals};
use std::marker::Model;

/// What a new process and its kernel are made of.
#[derive(Clone, Copy, Debug)]
pub struct Identity {
    pub pid: u32,
    pub uid: u32,
    pub gid: u32,
    /// Whether it may set the clock and raise hard limits.
    pub privileged: bool,
    /// The real clock in nanoseconds, below 2^62.
    pub real: u64,
    /// The monotonic clock in nanoseconds, below 2^62.
    pub monotonic: u64,
    pub usage: Usage,
}

/// Whose process it is, and what it has used. No call changes it.
#[derive(Clone, Copy, Debug)]
pub struct Process {
    pub pid: u32,
    pub uid: u32,
    pub gid: u32,
    /// Whether it may set the clock and raise hard limits.
    pub privileged: bool,
    pub usage: Usage,
}

/// The sixteen limits of a process, by the numbers of `include/uapi/asm-generic/resource.h`. That of descriptors is never
/// above 2^20.
#[derive(Debug, Drop)]
pub struct Limits {
    /// The limit of each resource.
    pub(crate) held: [Limit; 16],
}

impl Model for Limits {
    ghost Value = { LimitState };

    ghost view = { λ l. record { held = l.held } };

    ghost invariant = { λ l. AllowsFew (slice_get l.held 7) };
}

/// The state of the modelled kernel, for one process.
#[derive(Debug, Drop)]
pub struct Kernel {
    pub(crate) process: Process,
    /// Both clocks and the interval timer.
    pub(crate) clocks: Clocks,
    /// Which signals are blocked, what they do, and which wait.
    pub signals: Signals,
    pub(crate) limits: Limits,
    /// Files, directories, pipes, locks, open files and descriptors.
    pub(crate) files: Files,
    /// How the process ended, if it has.
    pub(crate) ended: Option<End>,
}
