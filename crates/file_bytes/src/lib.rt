//! The bytes of a file, as pages of 4,096 bytes, of which those that hold zeros alone need not be there.
#![tactic(auto)]

mod content;
mod filled;
mod page;
mod pages;
mod run;
mod search;

pub use content::Content;
pub use run::Run;

#[cfg(test)]
mod tests;
