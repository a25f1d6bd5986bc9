//! Files, directories, pipes, open files and descriptors of the modelled kernel: an operation for each call that needs both the tree
//! of files and what is open.
#![tactic(auto)]

mod closing;
mod connecting;
mod descriptors;
mod image;
mod items;
mod lengths;
mod listing;
mod locks;
mod new_directory;
mod opening;
mod paths;
mod piping;
mod releasing;
mod removing;
mod renaming;
mod retiming;
mod seeking;
mod sending;
mod state;
mod status;
mod transfers;
mod working;

pub use file_tree::Maker;
pub use items::FileCursor;
pub use open_files::Place;
pub use state::Files;
