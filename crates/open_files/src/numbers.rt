//! The numbers of new descriptors.

ghost use Rattle.std.specs.Prelude.{◌≡◌, ◌+◌};
ghost use Rattle.kernel_values.specs.Outcome.{Gives, Tells};
ghost use Rattle.open_files.specs.Numbers.{duplicate, free_number, free_pair, from_least};

use crate::state::{Descriptor, OpenFiles};
use kernel_values::{Answer, Errno, KernelFault};

fn from_least(least: i64) -> u64
    ensures { result ≡ from_least least }
{
    if least < 0 { 0 } else { least as u64 }
}

impl OpenFiles {
    /// The lowest free number of a descriptor, from a number on and below a limit. EMFILE.
    pub fn free_number(&self, from: u64, limit: u32) -> Result<u32, Errno>
        ensures { Tells result (free_number self.now from limit) }
    {
        match self.descriptors.first_free(from, u64::from(limit)) {
            Some(number) => Ok(number as u32),
            None => Err(Errno::TooManyDescriptors),
        }
    }

    /// The two lowest free numbers below a limit. EMFILE.
    pub(crate) fn free_pair(&self, limit: u32) -> Result<(u32, u32), Errno>
        ensures { Tells result (free_pair self.now limit) }
    {
        let first = self.free_number(0, limit)?;
        let second = self.free_number(u64::from(first) + 1, limit)?;
        Ok((first, second))
    }

    /// F_DUPFD, F_DUPFD_CLOEXEC, and with a negative `least` dup: another descriptor of the same open file, at
    /// the lowest free number from `least` on and below `limit`, the soft limit of descriptors.
    ///
    /// EBADF; EINVAL for a `least` at or above the limit; EMFILE; ENFILE where fewer than four things are left
    /// to make.
    pub fn duplicate(&mut self, limit: u32, fd: i64, least: i64, cloexec: bool) -> Answer<u32>
        ensures { Gives (λ n. n) result self.new (duplicate self.old limit fd least cloexec) }
    {
        let (_, held) = self.descriptor(fd)?;
        if least >= 0 && least as u64 >= u64::from(limit) {
            return Err(KernelFault::Errno(Errno::InvalidArgument));
        }
        let number = self.free_number(from_least(least), limit)?;
        if self.is_full() {
            return Err(KernelFault::Errno(Errno::TableFull));
        }
        let serial = held.serial;
        self.set_descriptor(number, Descriptor { serial, cloexec })?;
        Ok(number)
    }
}
