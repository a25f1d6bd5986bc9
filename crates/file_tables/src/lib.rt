//! Maps by number, and the tables of files and directories that stand in them: inodes, directories and the numbers of inodes.
#![tactic(auto)]

mod directories;
mod links;
mod listing;
mod name_index;
mod name_table;
mod names;
mod nodes;
mod numbers;
mod path_texts;
mod places;
mod slab_map;
mod slot;
mod state;
mod table;
mod times;
mod walk;

pub use listing::Line;
pub use name_table::NameTable;
pub use names::{ends_with_slash, is_absolute};
pub use path_texts::{ROOT, append, path_text};
pub use slab_map::SlabMap;
pub use state::{Directory, Entry, InodeNumbers, Last, Node};
pub use table::Table;
pub use times::are_bad_times;
pub use walk::{is_dot, is_dot_dot};

#[cfg(test)]
mod tests;
