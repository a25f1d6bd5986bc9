//! The 32-bit calls: fetch from user memory, one operation, and delivery; and the trap that chooses
//! a call by its number.
#![tactic(auto)]

mod choice;
mod identity;
mod limits;
mod region;
mod times;
mod trapping;
mod world;

pub use choice::serve_row;
pub use identity::{exit, getgid32, getpid, getrusage, getuid32};
pub use limits::{prlimit64, setrlimit, ugetrlimit};
pub use region::{CallRegion, REGION_SIZE};
pub use times::{
    clock_getres, clock_gettime, clock_nanosleep, clock_settime, gettimeofday, nanosleep,
};
pub use trapping::{trap, trap_by_kind};
pub use world::World;
