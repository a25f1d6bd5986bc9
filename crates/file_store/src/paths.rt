//! Where the steps of a path begin, and the inode that they lead to.

ghost use Rattle.std.specs.Prelude.{◌≡◌};
ghost use Rattle.kernel_values.specs.Outcome.{Tells, TellsAs};
ghost use Rattle.file_store.specs.Paths.{is_working, place_of, resolve, resolve_parent, start_of};

use crate::state::Files;
use file_tables::{Last, ROOT, is_absolute};
use kernel_values::{AT_FDCWD, Errno};

/// Whether a descriptor means the working directory.
pub(crate) fn is_working(fd: i64) -> bool
    ensures { result ≡ is_working fd }
{
    fd == AT_FDCWD
}

impl Files {
    /// The directory that a descriptor names. EBADF; ENOTDIR.
    #[tactic(auto, unfolding(crate::specs::Paths::place_of))]
    fn place_of(&self, from: i64) -> Result<u64, Errno>
        ensures { Tells result (place_of self.now from) }
    {
        if is_working(from) {
            return Ok(self.tree.working());
        }
        let (_, file) = self.open_files.open_file(from)?;
        if !self.tree.is_directory(file.inode) {
            return Err(Errno::NotDirectory);
        }
        Ok(file.inode)
    }

    /// Where the steps of a path begin. ENOENT for no path; EBADF; ENOTDIR.
    #[tactic(auto, unfolding(crate::specs::Paths::start_of))]
    fn start_of(&self, from: i64, path: &[u8]) -> Result<u64, Errno>
        ensures { Tells result (start_of self.now from path.now) }
    {
        if path.is_empty() {
            return Err(Errno::NoEntry);
        }
        if is_absolute(path) {
            return Ok(ROOT);
        }
        self.place_of(from)
    }

    /// The steps of a path to its last name, and that name. ENOENT; EBADF; ENOTDIR; ENAMETOOLONG.
    #[tactic(auto, unfolding(crate::specs::Paths::resolve_parent))]
    pub(crate) fn resolve_parent<'a>(&self, from: i64, path: &'a [u8]) -> Result<Last<'a>, Errno>
        ensures { TellsAs (λ l. (l.place, l.name.now)) result (resolve_parent self.now from path.now) }
    {
        let start = self.start_of(from, path)?;
        self.tree.parent_from(start, path)
    }

    /// The inode of a path. ENOENT; EBADF; ENOTDIR; ENAMETOOLONG.
    #[tactic(auto, unfolding(crate::specs::Paths::resolve))]
    pub(crate) fn resolve(&self, from: i64, path: &[u8]) -> Result<u64, Errno>
        ensures { Tells result (resolve self.now from path.now) }
    {
        let start = self.start_of(from, path)?;
        self.tree.inode_from(start, path)
    }
}
