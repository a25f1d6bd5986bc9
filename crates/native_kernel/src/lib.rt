//! The modelled kernel: its state, and one call for each operation.
#![tactic(auto)]

mod fresh;
mod items;
mod limits;
mod operations;
mod state;

pub use file_store::Place;
pub use items::StateCursor;
pub use limits::{MOST_OPEN_FILES, OPEN_FILES};
pub use open_files::{Accepted, Ready};
pub use signal_clock::{
    CLOCK_END, CLOCK_MONOTONIC, CLOCK_REALTIME, ClockId, Clocks, Signals, Slept, Taken, Timer,
    has_flag, is_on, stack_flags,
};
pub use state::{Identity, Kernel, Limits, Process};
