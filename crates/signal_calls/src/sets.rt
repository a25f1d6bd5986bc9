//! The size of a set of signals, where a call names it.

/// The bytes of a set of signals, `sigset_t` of the headers `signal.h` of both ABIs.
pub(crate) const SET_SIZE: u32 = 8;
