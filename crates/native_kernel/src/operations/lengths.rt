//! The calls of the kernel that set the length of a file, and its times.

ghost use Rattle.std.specs.Prelude.{◌≡◌, option_map};
ghost use Rattle.kernel_values.specs.Outcome.{GivesAlways};
ghost use Rattle.native_kernel.specs.Operations.{allocate, set_times, truncate, truncate_open};

use crate::state::Kernel;
use kernel_values::{Answer, FileTimes, TimeSpec};

impl Kernel {
    /// Gives the file of a path, from the working directory on, another length: cut, or with zeros behind its bytes. EINVAL
    /// for a length below 0; EFBIG above 2^40; what refuses the path; EISDIR. It takes no memory.
    #[tactic(auto, unfolding(crate::specs::Operations::truncate))]
    pub fn truncate(&mut self, path: &[u8], wanted: i64) -> Answer<()>
        ensures { GivesAlways (λ _. tt) result self.new (truncate self.old path.now wanted) }
    {
        let now = TimeSpec::of_nanoseconds(self.clocks.real());
        self.files.truncate(now, path, wanted)
    }

    /// Gives an open file another length. EBADF; EINVAL for a length below 0; EFBIG above 2^40; EINVAL for what is no file
    /// or isn't open for writing. It takes no memory.
    #[tactic(auto, unfolding(crate::specs::Operations::truncate_open))]
    pub fn truncate_open(&mut self, fd: i64, wanted: i64) -> Answer<()>
        ensures { GivesAlways (λ _. tt) result self.new (truncate_open self.old fd wanted) }
    {
        let now = TimeSpec::of_nanoseconds(self.clocks.real());
        self.files.truncate_open(now, fd, wanted)
    }

    /// Makes an open file reach up to `offset + count` at least, or with mode 1 (`FALLOC_FL_KEEP_SIZE`) changes nothing.
    /// EBADF, also where it isn't open for writing; EINVAL for an offset below 0 and a count of 0 or below; EOPNOTSUPP for
    /// another mode; ESPIPE for a pipe; ENODEV for a directory; EFBIG for an end above 2^40. It takes no memory.
    #[tactic(auto, unfolding(crate::specs::Operations::allocate))]
    pub fn allocate(&mut self, fd: i64, mode: i64, offset: i64, count: i64) -> Answer<()>
        ensures { GivesAlways (λ _. tt) result self.new (allocate self.old fd mode offset count) }
    {
        self.files.allocate(fd, mode, offset, count)
    }

    /// Sets when a file or a directory was last read and when its bytes last changed, to the times given or to now. Without
    /// a path it is what descriptor `from` has open. EINVAL for a flag other than `AT_SYMLINK_NOFOLLOW`, 0x100; without a
    /// path EFAULT for the working directory (-100) and EBADF; what refuses the path; EINVAL for nanoseconds outside 0 to
    /// 999,999,999 other than `UTIME_NOW`, 0x3fffffff, and `UTIME_OMIT`, 0x3ffffffe. It takes no memory.
    #[tactic(auto, unfolding(crate::specs::Operations::set_times))]
    pub fn set_times(
        &mut self,
        from: i64,
        path: Option<&[u8]>,
        times: Option<FileTimes>,
        flags: i64,
    ) -> Answer<()>
        ensures { GivesAlways (λ _. tt) result self.new (set_times self.old from (option_map (λ p. p.now) path.entry) times flags) }
    {
        let now = TimeSpec::of_nanoseconds(self.clocks.real());
        self.files.set_times(now, from, path, times, flags)
    }
}
