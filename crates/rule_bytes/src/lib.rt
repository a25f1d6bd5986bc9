//! The bytes of ip_tables rules, by `include/uapi/linux/netfilter_ipv4/ip_tables.h` and
//! `include/uapi/linux/netfilter/x_tables.h`: which bytes spell a rule, and the first fault of bytes that spell none.
#![tactic(auto)]

mod blobs;
mod heads;
mod jumps;
mod laws;
mod layout;
mod maps;
mod numbers;
mod outlines;
mod parts;
mod putting;
mod reading;
mod tables;
mod translating;

pub use blobs::put_rules;
pub use jumps::check_jumps;
pub use laws::{accepted, mapped, one_put, one_reading, one_table, placed_rule};
pub use layout::BlobLayout;
pub use maps::{find, map_rules, pair_at};
pub use outlines::{BlobOutline, RuleOutline, jump_in, outline};
pub use parts::{MatchKind, TargetKind};
pub use putting::{put_match, put_target};
pub use reading::{match_at, target_at};
pub use tables::ReplaceHeader;
pub use translating::put_rule;

#[cfg(test)]
mod tests;
