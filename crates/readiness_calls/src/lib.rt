//! The calls that tell what descriptors are ready for: poll and select. They take no memory, and no time passes.
#![tactic(auto)]

mod choice;
pub mod polls;
pub mod selects;
mod sets;

pub use choice::serve_readiness;
pub use sets::Condition;
