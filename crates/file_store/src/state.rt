//! The type of the state alone, so that the definitions may name it.

use file_tree::FileTree;
use open_files::OpenFiles;

/// Files, directories, pipes and what is open of them.
#[derive(Debug, Drop)]
pub struct Files {
    pub tree: FileTree,
    pub open_files: OpenFiles,
}
