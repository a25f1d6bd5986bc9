//! A script in, a report out: the command line's words, the whole run, and its status.
#![tactic(auto)]

mod check;
mod command;
mod machine;
mod report;
mod run;
mod state;
mod status;
mod stop;
mod stream;
mod top;

pub use status::Status;
pub use top::replay;

#[cfg(test)]
mod tests;
