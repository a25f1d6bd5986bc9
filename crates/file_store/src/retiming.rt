//! The times that utimensat sets.

ghost use Rattle.std.specs.Prelude.{◌≡◌, option_map};
ghost use Rattle.kernel_values.specs.Outcome.{GivesAlways, Tells};
ghost use Rattle.file_tables.specs.Times.{are_bad_times};
ghost use Rattle.file_store.specs.Retiming.{held_inode, is_times_flags, retimed_inode, set_times};

use crate::paths::is_working;
use crate::state::Files;
use file_tables::are_bad_times;
use kernel_values::{Answer, Errno, FileTimes, KernelFault, TimeSpec};

/// `AT_SYMLINK_NOFOLLOW` of `include/uapi/linux/fcntl.h`. No name is a symbolic link.
const SYMLINK_NOFOLLOW: i64 = 0x100;

fn is_times_flags(flags: i64) -> bool
    ensures { result ≡ is_times_flags flags }
{
    flags == 0 || flags == SYMLINK_NOFOLLOW
}

impl Files {
    /// The inode of a descriptor. EFAULT for the working directory; EBADF.
    fn held_inode(&self, from: i64) -> Result<u64, Errno>
        ensures { Tells result (held_inode self.now from) }
    {
        if is_working(from) {
            return Err(Errno::BadAddress);
        }
        let (_, file) = self.open_files.open_file(from)?;
        Ok(file.inode)
    }

    /// The inode of a path, or of a descriptor where there is no path.
    #[tactic(auto, unfolding(crate::specs::Retiming::retimed_inode))]
    fn retimed_inode(&self, from: i64, path: Option<&[u8]>) -> Result<u64, Errno>
        ensures { Tells result (retimed_inode self.now from (option_map (λ p. p.now) path.entry)) }
    {
        match path {
            Some(path) => self.resolve(from, path),
            None => self.held_inode(from),
        }
    }

    /// utimensat: sets when a file or a directory was last read and when its bytes last changed, to the times given or
    /// to `now`, the real time. Of each time given the nanoseconds may be `UTIME_NOW`, 0x3fffffff, for now, or
    /// `UTIME_OMIT`, 0x3ffffffe, which lets it stay. The time of the change is now in any case. `from` is the descriptor
    /// of the directory where a path begins that has no slash at its front, or `AT_FDCWD`; without a path it is the
    /// descriptor of what gets the times. A pipe has none. It takes no memory.
    ///
    /// EINVAL for a flag other than `AT_SYMLINK_NOFOLLOW`, 0x100; without a path EFAULT for `AT_FDCWD` and EBADF; what
    /// refuses the path (ENOENT, EBADF, ENOTDIR, ENAMETOOLONG); EINVAL for nanoseconds outside 0 to 999,999,999 that are
    /// neither `UTIME_NOW` nor `UTIME_OMIT`.
    pub fn set_times(
        &mut self,
        now: TimeSpec,
        from: i64,
        path: Option<&[u8]>,
        times: Option<FileTimes>,
        flags: i64,
    ) -> Answer<()>
        ensures { GivesAlways (λ _. tt) result self.new (set_times self.old now from (option_map (λ p. p.now) path.entry) times flags) }
    {
        if !is_times_flags(flags) {
            return Err(KernelFault::Errno(Errno::InvalidArgument));
        }
        let inode = self.retimed_inode(from, path)?;
        if are_bad_times(times) {
            return Err(KernelFault::Errno(Errno::InvalidArgument));
        }
        self.tree.retime(inode, now, times);
        Ok(())
    }
}
