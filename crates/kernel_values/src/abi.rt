//! The kinds of process.

/// The two kinds of 32-bit process that are served.
#[derive(Clone, Copy, Debug, PartialEq, Eq)]
pub enum AbiKind {
    /// i386, entered by `int 0x80`.
    Ia32,
    /// Little-endian Arm EABI.
    ArmEabi,
}
