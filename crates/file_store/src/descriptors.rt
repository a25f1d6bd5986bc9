//! Descriptors that are closed, and put in the place of others.

ghost use Rattle.std.specs.Prelude.{◌≡◌, Some};
ghost use Rattle.kernel_values.specs.Outcome.{Gives, GivesAlways};
ghost use Rattle.number_maps.specs.NumberMap.{at};
ghost use Rattle.file_store.specs.Descriptors.{close, closed, duplicate_to, is_dup_flags, is_number, vacated};

use crate::state::Files;
use kernel_values::{Answer, Errno, KernelFault};
use open_files::{CLOSE_ON_EXEC, Descriptor, number_of};

/// `O_CLOEXEC` is the one flag of dup3.
fn is_dup_flags(flags: u32) -> bool
    ensures { result ≡ is_dup_flags flags }
{
    flags == 0 || flags == CLOSE_ON_EXEC
}

fn is_number(fd: i64, number: u32) -> bool
    ensures { result ≡ is_number fd number }
{
    fd >= 0 && fd as u64 == u64::from(number)
}

impl Files {
    #[tactic(auto, unfolding(crate::specs::Descriptors::closed))]
    pub(crate) fn drop_descriptor(&mut self, number: u64, serial: u64)
        ensures { self.new ≡ closed self.old number serial }
    {
        self.open_files.remove_descriptor(number);
        self.drop_locks(serial);
        self.release(serial);
    }

    /// Closes a descriptor. The process's locks on its file go with it; its open file ends with its last descriptor,
    /// and a pipe, or a file without a name, with its last open file. EBADF.
    pub fn close(&mut self, fd: i64) -> Answer<()>
        ensures { GivesAlways (λ _. tt) result self.new (close self.old fd) }
    {
        let (number, held) = self.open_files.descriptor(fd)?;
        self.drop_descriptor(u64::from(number), held.serial);
        Ok(())
    }

    fn vacate(&mut self, number: u32)
        ensures { self.new ≡ vacated self.old number (at self.old.open_files.descriptors number) }
    {
        if let Some(held) = self.open_files.descriptor_at(number) {
            self.drop_descriptor(u64::from(number), held.serial);
        }
    }

    /// dup2, and with `three` dup3: makes a number name the same open file, and closes first what was open
    /// there. dup2 has no flags, and onto itself it changes nothing.
    ///
    /// EBADF; of dup3 EINVAL for flags other than O_CLOEXEC and for the same number; EBADF for a new number
    /// below 0 or at or above `limit`, the soft limit of descriptors, which dup2 onto itself isn't held to.
    pub fn duplicate_to(
        &mut self,
        limit: u32,
        fd: i64,
        new: i64,
        flags: u32,
        three: bool,
    ) -> Answer<u32>
        ensures { Gives (λ n. n) result self.new (duplicate_to self.old limit fd new flags three) }
    {
        let (old, held) = self.open_files.descriptor(fd)?;
        if three && !is_dup_flags(flags) {
            return Err(KernelFault::Errno(Errno::InvalidArgument));
        }
        if three && is_number(new, old) {
            return Err(KernelFault::Errno(Errno::InvalidArgument));
        }
        let number = number_of(new)?;
        if old == number {
            return Ok(number);
        }
        if number >= limit {
            return Err(KernelFault::Errno(Errno::BadDescriptor));
        }
        self.vacate(number);
        let (serial, cloexec) = (held.serial, three && flags == CLOSE_ON_EXEC);
        self.open_files
            .set_descriptor(number, Descriptor { serial, cloexec })?;
        Ok(number)
    }
}
