//! A region of bytes for what a call translates.
#![tactic(auto)]

mod marks;
mod region;

pub use marks::{Full, Mark, Span};
pub use region::Scratch;

#[cfg(test)]
mod tests;
