//! Lemmas for the crates of laws: maps after one entry came, went or changed, and what an answer tells of the steps that led to it.
#![tactic(auto)]
