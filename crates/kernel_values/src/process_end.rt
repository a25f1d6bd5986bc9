//! How a process ended.

/// How a process ended.
#[derive(Clone, Copy, Debug, PartialEq, Eq)]
pub enum End {
    /// By exit or exit_group, with the low 8 bits of their code.
    Exit(u8),
    /// By a signal with this number.
    Signal(u32),
}
