//! The text of a report: the lines of calls, and a line for each item of the kernel's state.
#![tactic(auto)]

mod clocks;
mod fields;
mod items;
mod limits;
mod open_files;
mod report;
mod rules;
mod signals;
mod sockets;
mod text;
mod tree;

pub use items::{is_front, put_item, put_peak};
pub use report::{
    put_bad, put_call, put_change, put_end, put_gone, put_last, put_ok, put_state_head,
};

#[cfg(test)]
mod tests;
