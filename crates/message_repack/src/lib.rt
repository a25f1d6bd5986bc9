//! What calls translate into the kernel's own layout, in the region: vectors.
#![tactic(auto)]

mod vectors;

pub use vectors::{piece_at, vector_in};

#[cfg(test)]
mod tests;
