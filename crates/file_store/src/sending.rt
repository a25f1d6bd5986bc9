//! The bytes of a file sent to what another descriptor has open.

ghost use Rattle.std.specs.Prelude.{◌≡◌, ◌+◌, ◌<◌, ◌≤◌, ◌^◌, ◌⊎◌, IfOk};
ghost use Rattle.kernel_values.specs.Outcome.{Gives, Tells};
ghost use Rattle.file_tree.specs.Lengths.{size_of};
ghost use Rattle.file_store.specs.Sending.{EndsInFile, narrow_count, send_count, send_file, send_source, source_moved};

use crate::state::Files;
use kernel_values::{Answer, Credentials, Errno, KernelFault, MOST_NARROW, TimeSpec};
use open_files::{OpenFile, Place, is_of_directory, is_of_file, place_of};
use std::alloc::Global;

/// How many bytes a call with an offset of 32 bits asks for. EOVERFLOW where the first one would be at 2^31 - 1 or above.
fn narrow_count(start: u64, count: u64) -> Result<u64, Errno>
    ensures told { Tells result (narrow_count start count) }
    ensures most { IfOk result (λ n. n ≤ count) }
{
    if u128::from(start) + u128::from(count) <= u128::from(MOST_NARROW) {
        return Ok(count);
    }
    if start >= MOST_NARROW {
        return Err(Errno::Overflow);
    }
    Ok(MOST_NARROW - start)
}

fn send_count(place: Place, narrow: bool, start: u64, count: u64) -> Result<u64, Errno>
    ensures told { Tells result (send_count place narrow start count) }
    ensures most { IfOk result (λ n. n ≤ count) }
{
    match place {
        Place::Current => Ok(count),
        Place::At(_) => {
            if narrow {
                narrow_count(start, count)
            } else {
                Ok(count)
            }
        }
    }
}

impl Files {
    /// Which open file is read, from where in it, and how many bytes of it.
    #[tactic(auto, unfolding(crate::specs::Sending::send_source))]
    fn send_source(
        &self,
        target: i64,
        source: i64,
        place: Place,
        count: u64,
        narrow: bool,
    ) -> Result<((u64, OpenFile), (u64, u64)), Errno>
        ensures told { Tells result (send_source self.now target source place count narrow) }
        ensures most { IfOk result (λ x. x.1.1 ≤ count) }
        ensures within { IfOk result (λ x. x.1.1 ≡ 0 ⊎ (x.1.0 + x.1.1 ≤ size_of self.now.tree x.0.1.inode)) }
        ensures sum { IfOk result (λ x. x.1.0 + x.1.1 < 2 ^ 64) }
        ensures end { IfOk result (λ x. EndsInFile place x.1.1) }
    {
        let (_, to) = self.open_files.open_file(target)?;
        if !to.flags.can_write() {
            return Err(Errno::BadDescriptor);
        }
        let (serial, file) = self.open_files.open_file(source)?;
        if !file.flags.can_read() {
            return Err(Errno::BadDescriptor);
        }
        let start = place_of(&file, place)?;
        if !is_of_file(file.kind) {
            return Err(Errno::InvalidArgument);
        }
        if is_of_directory(to.kind) || to.flags.appends() {
            return Err(Errno::InvalidArgument);
        }
        let wanted = send_count(place, narrow, start, count)?;
        let left = self.bytes_left(&file, start, wanted);
        Ok(((serial, file), (start, left)))
    }

    /// Moves the position of the source, where that is where it was read.
    fn move_source(&mut self, serial: u64, place: Place, position: u64)
        ensures { self.new ≡ source_moved self.old serial place position }
    {
        match place {
            Place::Current => {
                if let Some(file) = self.open_files.file_at(serial) {
                    self.open_files.move_to(serial, file, position);
                }
            }
            Place::At(_) => {}
        }
    }

    /// sendfile and sendfile64: writes bytes of a file, from its position or from an offset on, to what another descriptor has open, at
    /// most `count`; with a `narrow` offset none from byte 2^31 - 1 on. It gives how many. From its position on the source's position
    /// moves by as many; an offset is the caller's. `now` is the real time, which the target's times are set to, and
    /// `own` are the process's credentials.
    ///
    /// EBADF where the target isn't open for writing, and then where the source isn't open for reading; EINVAL for an offset below 0,
    /// for a source that is no file, and for a target that is a directory or appends; EOVERFLOW for a narrow offset of 2^31 - 1 and above; what
    /// refuses the write, of no byte too.
    #[tactic(auto, using(crate::proofs::Moves::fewer_end))]
    pub fn send_file(
        &mut self,
        alloc: Global,
        now: TimeSpec,
        own: Credentials,
        target: i64,
        source: i64,
        place: Place,
        count: u64,
        narrow: bool,
    ) -> Answer<u64>
        ensures gives { Gives (λ n. n) result self.new (send_file self.old now own target source place count narrow) }
        ensures count { IfOk result (λ n. n ≤ count) }
        ensures end { IfOk result (λ n. EndsInFile place n) }
    {
        let ((serial, file), (start, left)) = self.send_source(
            target, source, place, count, narrow,
        )?;
        let bytes = self.bytes_at(alloc, file.inode, start, left)?;
        let wanted = bytes.len() as u64;
        let written = self.write(alloc, now, own, target, wanted, &bytes, Place::Current)?;
        self.move_source(serial, place, start + written);
        Ok(written)
    }
}
