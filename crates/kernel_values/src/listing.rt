//! What the listing of a directory tells.

use crate::lists::NameText;

/// One entry of a listing: `d_ino`, `d_off`, `d_type` and `d_name` of `struct linux_dirent64`
/// (`include/linux/dirent.h`).
#[derive(Debug, Drop)]
pub struct DirEntry {
    pub inode: u64,
    /// The entry's own position: a listing from it goes on behind the entry.
    pub position: u64,
    /// `DT_DIR` or `DT_REG` of `include/linux/fs_types.h`.
    pub kind: u8,
    pub name: NameText,
}
