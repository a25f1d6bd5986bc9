//! Other lengths of files.

ghost use Rattle.std.specs.Prelude.{◌+◌, ◌≤◌, IfOk};
ghost use Rattle.kernel_values.specs.Bounds.{most_file_bytes};
ghost use Rattle.kernel_values.specs.Outcome.{GivesAlways, Tells};
ghost use Rattle.file_store.specs.Lengths.{allocate, length_of, raises_length, truncate, truncate_open};

use crate::state::Files;
use kernel_values::{AT_FDCWD, Answer, Errno, KernelFault, MOST_FILE_BYTES, TimeSpec};
use open_files::{is_of_file, is_of_pipe};

/// `FALLOC_FL_KEEP_SIZE` of `include/uapi/linux/falloc.h`: the length stays.
const KEEP_SIZE: i64 = 1;

/// A length. EINVAL below 0; EFBIG above 2^40.
fn length_of(wanted: i64) -> Result<u64, Errno>
    ensures told { Tells result (length_of wanted) }
    ensures limit { IfOk result (λ n. n ≤ most_file_bytes) }
{
    if wanted < 0 {
        return Err(Errno::InvalidArgument);
    }
    let length = wanted as u64;
    if length > MOST_FILE_BYTES {
        return Err(Errno::FileTooLarge);
    }
    Ok(length)
}

/// Whether this mode of fallocate raises the length. EOPNOTSUPP for one that there isn't.
fn raises_length(mode: i64) -> Result<bool, Errno>
    ensures { Tells result (raises_length mode) }
{
    match mode {
        0 => Ok(true),
        KEEP_SIZE => Ok(false),
        _ => Err(Errno::OperationNotSupported),
    }
}

impl Files {
    /// truncate: gives the file of a path another length, cut or with zeros behind its bytes. `now` is the real time,
    /// which the file's times are set to, also where the length stays. It takes no memory.
    ///
    /// EINVAL for a length below 0; EFBIG above 2^40; what refuses the path (ENOENT, ENOTDIR, ENAMETOOLONG); EISDIR.
    pub fn truncate(&mut self, now: TimeSpec, path: &[u8], wanted: i64) -> Answer<()>
        ensures { GivesAlways (λ _. tt) result self.new (truncate self.old now path.now wanted) }
    {
        let length = length_of(wanted)?;
        let inode = self.resolve(AT_FDCWD, path)?;
        if self.tree.is_directory(inode) {
            return Err(KernelFault::Errno(Errno::IsDirectory));
        }
        self.tree.set_length(now, inode, length);
        Ok(())
    }

    /// ftruncate: gives an open file another length, as `truncate` does. It takes no memory.
    ///
    /// EBADF; EINVAL for a length below 0; EFBIG above 2^40; EINVAL for what is no file or isn't open for writing.
    pub fn truncate_open(&mut self, now: TimeSpec, fd: i64, wanted: i64) -> Answer<()>
        ensures { GivesAlways (λ _. tt) result self.new (truncate_open self.old now fd wanted) }
    {
        let (_, file) = self.open_files.open_file(fd)?;
        let length = length_of(wanted)?;
        if !is_of_file(file.kind) || !file.flags.can_write() {
            return Err(KernelFault::Errno(Errno::InvalidArgument));
        }
        self.tree.set_length(now, file.inode, length);
        Ok(())
    }

    /// fallocate: makes an open file reach up to `offset + count` at least, or with mode 1 (`FALLOC_FL_KEEP_SIZE`)
    /// changes nothing. The file's times stay. It takes no memory.
    ///
    /// EBADF, also where it isn't open for writing; EINVAL for an offset below 0 and a count of 0 or below; EOPNOTSUPP
    /// for another mode; ESPIPE for a pipe; ENODEV for what is no file either; EFBIG for an end above 2^40.
    pub fn allocate(&mut self, fd: i64, mode: i64, offset: i64, count: i64) -> Answer<()>
        ensures { GivesAlways (λ _. tt) result self.new (allocate self.old fd mode offset count) }
    {
        let (_, file) = self.open_files.open_file(fd)?;
        if !file.flags.can_write() {
            return Err(KernelFault::Errno(Errno::BadDescriptor));
        }
        if offset < 0 || count <= 0 {
            return Err(KernelFault::Errno(Errno::InvalidArgument));
        }
        let raises = raises_length(mode)?;
        if is_of_pipe(file.kind) {
            return Err(KernelFault::Errno(Errno::IllegalSeek));
        }
        if !is_of_file(file.kind) {
            return Err(KernelFault::Errno(Errno::NoDevice));
        }
        let end = offset.unsigned_abs() as u128 + count.unsigned_abs() as u128;
        if end > MOST_FILE_BYTES as u128 {
            return Err(KernelFault::Errno(Errno::FileTooLarge));
        }
        self.tree.raise_to(raises, file.inode, end as u64);
        Ok(())
    }
}
