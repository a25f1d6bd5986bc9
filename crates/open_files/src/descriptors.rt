//! Descriptors, and the open files that they name.

ghost use Rattle.std.specs.Prelude.{◌≡◌, ◌∷◌, [], ◌<◌, Some, IsSome, IfOk, OnOk, MatchOption, length};
ghost use Rattle.kernel_values.specs.Outcome.{Tells};
ghost use Rattle.number_maps.specs.NumberMap.{after_key, at};
ghost use Rattle.open_files.specs.Descriptors.{counted, descriptor_of, installed, nothing_open, number_of, open_file, position, with_descriptor, with_open_file, with_position, without_descriptor, without_open_file};
ghost use Rattle.open_files.specs.Made.{HasRoom, is_full};

use crate::made::Made;
use crate::state::{Descriptor, OpenFile, OpenFiles};
use file_tables::{SlabMap, Table};
use kernel_values::{Errno, OutOfMemory};
use pipe_sock::Pipes;
use socket_tables::Sockets;
use std::alloc::Global;

/// No number of a descriptor is as great.
const NUMBERS_END: i64 = 1 << 32;

/// The number of a descriptor. EBADF below 0 and above 2^32 - 1.
#[tactic(auto, unfolding(crate::specs::Descriptors::number_of))]
pub fn number_of(fd: i64) -> Result<u32, Errno>
    ensures { Tells result (number_of fd) }
{
    if fd < 0 || fd >= NUMBERS_END {
        return Err(Errno::BadDescriptor);
    }
    Ok(fd as u32)
}

impl OpenFiles {
    /// Nothing is open, and nothing was made.
    pub fn new(alloc: Global) -> OpenFiles
        ensures { result ≡ nothing_open }
    {
        OpenFiles {
            descriptors: Table::new(alloc),
            files: SlabMap::new(alloc),
            pipes: Pipes::new(alloc),
            sockets: Sockets::new(alloc),
            made: Made::new(),
        }
    }

    /// The number and the descriptor. EBADF where it isn't open.
    #[tactic(auto, unfolding(crate::specs::Descriptors::descriptor_of))]
    pub fn descriptor(&self, fd: i64) -> Result<(u32, Descriptor), Errno>
        ensures told { Tells result (descriptor_of self.now fd) }
        ensures there { IfOk result (λ d. at self.now.descriptors d.0 ≡ Some d.1) }
    {
        let number = number_of(fd)?;
        match self.descriptors.get(u64::from(number)) {
            Some(descriptor) => Ok((number, *descriptor)),
            None => Err(Errno::BadDescriptor),
        }
    }

    /// The serial number and the open file of a descriptor. EBADF where it isn't open.
    #[tactic(auto, unfolding(crate::specs::Descriptors::open_file))]
    pub fn open_file(&self, fd: i64) -> Result<(u64, OpenFile), Errno>
        ensures told { Tells result (open_file self.now fd) }
        ensures there { IfOk result (λ f. at self.now.files f.0 ≡ Some f.1) }
    {
        let (_, descriptor) = self.descriptor(fd)?;
        match self.files.get(descriptor.serial) {
            Some(file) => Ok((descriptor.serial, *file)),
            None => Err(Errno::BadDescriptor),
        }
    }

    /// The position of an open file, from which the listing of a directory goes on. EBADF.
    #[tactic(auto, unfolding(crate::specs::Descriptors::position))]
    pub fn position(&self, fd: i64) -> Result<u64, Errno>
        ensures { Tells result (position self.now fd) }
    {
        let (_, file) = self.open_file(fd)?;
        Ok(file.position)
    }

    /// The descriptor at a number, where it is open.
    pub fn descriptor_at(&self, number: u32) -> Option<Descriptor>
        ensures { result ≡ at self.now.descriptors number }
    {
        self.descriptors.get(u64::from(number)).copied()
    }

    /// The open file with a serial number.
    pub fn file_at(&self, serial: u64) -> Option<OpenFile>
        ensures { result ≡ at self.now.files serial }
    {
        self.files.get(serial).copied()
    }

    /// The lowest descriptor that is open, and its number.
    pub fn lowest(&self) -> Option<(u64, Descriptor)>
        ensures { MatchOption result (self.now.descriptors ≡ []) (λ d. self.now.descriptors ≡ (d.0, d.1) ∷ after_key self.now.descriptors d.0) }
    {
        match self.descriptors.after(None) {
            Some((number, descriptor)) => Some((number, *descriptor)),
            None => None,
        }
    }

    /// How many descriptors are open.
    pub fn len(&self) -> usize
        ensures { result ≡ length self.now.descriptors }
    {
        self.descriptors.len()
    }

    /// Whether fewer than four things are left to make.
    pub fn is_full(&self) -> bool
        ensures { result ≡ is_full self.now.made }
    {
        self.made.is_full()
    }

    /// Counts things that were made elsewhere.
    pub fn count(&mut self, things: u64)
        requires { HasRoom self.old.made things }
        ensures { self.new ≡ counted self.old things }
    {
        self.made.count(things);
    }
}

impl OpenFiles {
    /// Changes an open file.
    pub(crate) fn change_open_file(&mut self, serial: u64, file: OpenFile)
        requires { IsSome (at self.old.files serial) }
        ensures { self.new ≡ with_open_file self.old serial file }
    {
        self.files.change(serial, file);
    }

    /// Gives an open file, which is as it is given, another position.
    pub fn move_to(&mut self, serial: u64, file: OpenFile, position: u64)
        requires { IsSome (at self.old.files serial) }
        ensures { self.new ≡ with_position self.old serial file position }
    {
        self.change_open_file(serial, OpenFile { position, ..file });
    }

    /// Puts a descriptor at a number.
    pub fn set_descriptor(&mut self, number: u32, descriptor: Descriptor) -> Result<(), OutOfMemory>
        ensures { OnOk result (self.new ≡ with_descriptor self.old number descriptor) }
    {
        self.descriptors.put(u64::from(number), descriptor)
    }

    /// Takes a descriptor away.
    pub fn remove_descriptor(&mut self, number: u64)
        ensures { self.new ≡ without_descriptor self.old number }
    {
        let _closed = self.descriptors.remove(number);
    }

    /// Takes an open file away.
    pub fn remove_open_file(&mut self, serial: u64)
        ensures { self.new ≡ without_open_file self.old serial }
    {
        let _ended = self.files.remove(serial);
    }

    /// Makes an open file and its descriptor.
    pub fn put_open_file(
        &mut self,
        number: u32,
        file: OpenFile,
        cloexec: bool,
    ) -> Result<(), OutOfMemory>
        requires { HasRoom self.old.made 1 }
        ensures { OnOk result (self.new ≡ installed self.old number file cloexec) }
    {
        let serial = self.made.open_one();
        self.files.put(serial, file)?;
        self.descriptors
            .put(u64::from(number), Descriptor { serial, cloexec })
    }
}
