//! Layouts of structures by ABI, and the laws that each shape meets.
#![tactic(auto)]

pub mod abi;
pub mod columns;
pub mod layout;
pub mod numbers;
pub mod rows;
pub mod table;
pub mod tabled;
pub mod user;

pub use abi::{Abi, ArmEabi, Compat, Ia32, Native64};
pub use columns::{Column, Field, Misfit, Offset};
pub use layout::Layout;
pub use numbers::{put_numbers, put_words};
pub use rows::NoForm;
pub use table::{Table, bytes_of, get_row, put_row};
pub use tabled::Tabled;
pub use user::{StoreFault, fetch, store};

#[cfg(test)]
mod tests;
