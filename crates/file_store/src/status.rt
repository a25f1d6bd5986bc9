//! What is told of a file, a directory, a pipe or a socket.

ghost use Rattle.std.specs.Prelude.{◌≡◌};
ghost use Rattle.kernel_values.specs.Outcome.{Tells};
ghost use Rattle.file_store.specs.Status.{allows_empty_path, is_status_flags, path_status, place_status, status, status_at};

use crate::paths::is_working;
use crate::state::Files;
use file_tree::{Maker, nameless_status};
use kernel_values::{Errno, Stat};
use open_files::{is_of_pipe, is_of_socket};

/// S_IFIFO and 0600.
const PIPE_MODE: u32 = 0x1180;
/// S_IFSOCK and 0777.
const SOCKET_MODE: u32 = 0xc1ff;
/// `AT_EMPTY_PATH` of `include/uapi/linux/fcntl.h`: an empty path means the descriptor.
const EMPTY_PATH: i64 = 0x1000;
/// The flags that there are: that one, `AT_NO_AUTOMOUNT` 0x800 and `AT_SYMLINK_NOFOLLOW` 0x100.
const STATUS_FLAGS: i64 = 0x1900;

/// Whether these are flags of fstatat64.
fn is_status_flags(flags: i64) -> bool
    ensures { result ≡ is_status_flags flags }
{
    flags >= 0 && flags | STATUS_FLAGS == STATUS_FLAGS
}

/// Whether an empty path means the descriptor.
fn allows_empty_path(flags: i64) -> bool
    ensures { result ≡ allows_empty_path flags }
{
    flags >= 0 && flags & EMPTY_PATH == EMPTY_PATH
}

impl Files {
    /// fstat and fstat64: what is told of an open file, a directory, a pipe or a socket. A pipe and a socket belong to `owner`,
    /// and have no times. The size is in bytes, and a page of 4,096 bytes takes 8 blocks where it holds a byte other than 0. EBADF. It
    /// takes no memory.
    #[tactic(auto, unfolding(crate::specs::Status::status))]
    pub fn status(&self, owner: &Maker, fd: i64) -> Result<Stat, Errno>
        ensures { Tells result (status self.now owner.now fd) }
    {
        let (_, file) = self.open_files.open_file(fd)?;
        if is_of_pipe(file.kind) {
            return Ok(nameless_status(owner, PIPE_MODE, file.inode));
        }
        if is_of_socket(file.kind) {
            return Ok(nameless_status(owner, SOCKET_MODE, file.inode));
        }
        self.tree.inode_status(file.inode)
    }

    /// What is told of a directory descriptor itself, which may be the working directory. EBADF.
    fn place_status(&self, owner: &Maker, from: i64) -> Result<Stat, Errno>
        ensures { Tells result (place_status self.now owner.now from) }
    {
        if is_working(from) {
            return self.tree.inode_status(self.tree.working());
        }
        self.status(owner, from)
    }

    /// What is told of what a path means. ENOENT; EBADF; ENOTDIR; ENAMETOOLONG.
    fn path_status(&self, from: i64, path: &[u8]) -> Result<Stat, Errno>
        ensures { Tells result (path_status self.now from path.now) }
    {
        let inode = self.resolve(from, path)?;
        self.tree.inode_status(inode)
    }

    /// fstatat64, and without flags stat and stat64: what is told of what a path means, from the directory of a descriptor
    /// or from the working directory (-100). With the flag AT_EMPTY_PATH, 0x1000, an empty path means the descriptor, as in
    /// `status`. AT_SYMLINK_NOFOLLOW, 0x100, and AT_NO_AUTOMOUNT, 0x800, change nothing.
    ///
    /// EINVAL for other flags; what refuses the path (ENOENT, EBADF, ENOTDIR, ENAMETOOLONG). It takes no memory.
    #[tactic(auto, unfolding(crate::specs::Status::status_at))]
    pub fn status_at(
        &self,
        owner: &Maker,
        from: i64,
        path: &[u8],
        flags: i64,
    ) -> Result<Stat, Errno>
        ensures { Tells result (status_at self.now owner.now from path.now flags) }
    {
        if !is_status_flags(flags) {
            return Err(Errno::InvalidArgument);
        }
        if allows_empty_path(flags) && path.is_empty() {
            return self.place_status(owner, from);
        }
        self.path_status(from, path)
    }
}
