//! The reader of scripts: records one after another, however the source cuts its bytes, and the cause of a bad line.
#![tactic(auto)]

mod ahead;
mod fault;
mod fields;
mod grammar;
mod record;
mod script;
mod seen;

pub use fault::{LineCause, ScriptFault};
pub use record::Record;
pub use script::Script;

#[cfg(test)]
mod tests;
