//! Open files and credentials that go with messages (`unix(7)`, "Ancillary messages"): those that a sender names, and the descriptors that a
//! receiver gets.
#![tactic(auto)]

mod attaching;
mod giving;

pub use attaching::outgoing;
pub use giving::{Given, give};
