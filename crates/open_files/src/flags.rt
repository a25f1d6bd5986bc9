//! The flags of descriptors and of open files.

ghost use Rattle.std.specs.Prelude.{◌≡◌};
ghost use Rattle.kernel_values.specs.Outcome.{GivesAlways, Tells};
ghost use Rattle.open_files.specs.Flags.{can_use, fd_flags, open_flags, set_fd_flags, set_open_flags};

use crate::state::{Descriptor, OpenFile, OpenFiles};
use kernel_values::{Answer, Errno, OpenFlags};

/// `O_CLOEXEC` of `include/uapi/asm-generic/fcntl.h`.
pub const CLOSE_ON_EXEC: u32 = 0x8_0000;

impl OpenFiles {
    /// F_GETFD: the close-on-exec mark of a descriptor, as bit 0. EBADF.
    #[tactic(auto, unfolding(crate::specs::Flags::fd_flags))]
    pub fn fd_flags(&self, fd: i64) -> Result<u32, Errno>
        ensures { Tells result (fd_flags self.now fd) }
    {
        let (_, held) = self.descriptor(fd)?;
        Ok(if held.cloexec { 1 } else { 0 })
    }

    /// F_SETFD: sets the close-on-exec mark from bit 0. EBADF.
    pub fn set_fd_flags(&mut self, fd: i64, word: u32) -> Answer<()>
        ensures { GivesAlways (λ _. tt) result self.new (set_fd_flags self.old fd word) }
    {
        let (number, held) = self.descriptor(fd)?;
        let cloexec = word % 2 == 1;
        self.descriptors
            .change(u64::from(number), Descriptor { cloexec, ..held });
        Ok(())
    }

    /// F_GETFL: the flags of an open file. EBADF.
    #[tactic(auto, unfolding(crate::specs::Flags::open_flags))]
    pub fn open_flags(&self, fd: i64) -> Result<OpenFlags, Errno>
        ensures { Tells result (open_flags self.now fd) }
    {
        let (_, file) = self.open_file(fd)?;
        Ok(file.flags)
    }

    /// F_SETFL: sets O_APPEND and O_NONBLOCK of an open file as given. EBADF.
    pub fn set_open_flags(&mut self, fd: i64, given: OpenFlags) -> Answer<()>
        ensures { GivesAlways (λ _. tt) result self.new (set_open_flags self.old fd given) }
    {
        let (serial, file) = self.open_file(fd)?;
        let flags = file.flags.with_status(given);
        self.change_open_file(serial, OpenFile { flags, ..file });
        Ok(())
    }

    /// Whether a descriptor is open, for reading where that is asked for, and for writing where that is.
    #[tactic(auto, unfolding(crate::specs::Flags::can_use))]
    pub fn can_use(&self, fd: i64, read: bool, write: bool) -> bool
        ensures { result ≡ can_use self.now fd read write }
    {
        match self.open_file(fd) {
            Ok((_, file)) => {
                (!read || file.flags.can_read()) && (!write || file.flags.can_write())
            }
            Err(_) => false,
        }
    }
}
