//! The pieces of a vector as one row of bytes.
#![tactic(auto)]

mod pieces;

pub use pieces::{fetch_pieces, pieces_room, pieces_total, store_pieces};

#[cfg(test)]
mod tests;
