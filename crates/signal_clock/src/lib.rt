//! Signals, the two clocks with the interval timer, and time that passes.
#![tactic(auto)]

mod actions;
mod clocks;
mod fresh;
mod held;
mod items;
mod masks;
mod posting;
mod sets;
mod sleeping;
mod stacks;
mod state;
mod taking;
mod timers;
mod values;
mod waiting;

pub use clocks::{CLOCK_END, CLOCK_MONOTONIC, CLOCK_REALTIME};
pub use held::{HeldActions, HeldMask};
pub use items::SignalCursor;
pub use posting::own_info;
pub use stacks::{is_on, stack_flags};
pub use state::{Clocks, HeldStack, Signals, WaitingSignals};
pub use taking::has_flag;
pub use values::{ClockId, Slept, Taken, Timer};

#[cfg(test)]
mod tests;
