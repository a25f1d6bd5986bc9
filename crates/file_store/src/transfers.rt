//! Reads and writes of files, pipes and sockets.

ghost use Rattle.std.specs.Prelude.{◌≡◌, ◌-◌, ◌+◌, ◌<◌, ◌≤◌, ◌^◌, true, IsSome, IfOk, OnErr, length, max, take, drop, ◌⊎◌};
ghost use Rattle.kernel_values.specs.Bounds.{most_file_bytes};
ghost use Rattle.kernel_values.specs.Outcome.{Gives, GivesAlways, OnOutOfMemory, Tells, settled};
ghost use Rattle.number_maps.specs.NumberMap.{at};
ghost use Rattle.file_tree.specs.Lengths.{bytes_of, size_of};
ghost use Rattle.open_files.specs.Transfers.{moves_bytes, read_pipe, write_pipe, write_socket};
ghost use Rattle.file_store.specs.State.{with_open_files};
ghost use Rattle.file_store.specs.Transfers.{bytes_left, moved_on, read, read_file, read_socket, size_limit, write, write_file, write_place};

use crate::state::Files;
use kernel_values::{
    Answer, ByteList, Credentials, Errno, KernelFault, MOST_FILE_BYTES, MOST_NARROW, OutOfMemory,
    TimeSpec,
};
use open_files::{OpenFile, Place, is_of_directory, is_of_pipe, is_of_socket, place_of};
use std::alloc::Global;

/// The bytes that a file may have for a write through this open file.
fn size_limit(file: &OpenFile) -> u64
    ensures value { result ≡ size_limit file.now }
    ensures most { result ≤ most_file_bytes }
{
    if file.flags.is_large() {
        MOST_FILE_BYTES
    } else {
        MOST_NARROW
    }
}

impl Files {
    pub(crate) fn bytes_left(&self, file: &OpenFile, start: u64, wanted: u64) -> u64
        ensures count { result ≡ bytes_left self.now file.now start wanted }
        ensures end { start + result < 2 ^ 64 }
        ensures within { result ≡ 0 ⊎ (start + result ≤ size_of self.now.tree file.now.inode) }
        ensures limit { start + result ≤ max start most_file_bytes }
        ensures most { result ≤ wanted }
    {
        wanted.min(self.tree.size_of(file.inode).saturating_sub(start))
    }

    fn move_on(&mut self, serial: u64, file: OpenFile, place: Place, position: u64)
        requires { IsSome (at self.old.open_files.files serial) }
        ensures { self.new ≡ moved_on self.old serial file place position }
    {
        match place {
            Place::Current => self.open_files.move_to(serial, file, position),
            Place::At(_) => {}
        }
    }

    /// The bytes of a file from a place on, none of an inode that has no content. Only bytes take memory.
    pub(crate) fn bytes_at(
        &self,
        alloc: Global,
        inode: u64,
        start: u64,
        count: u64,
    ) -> Result<Vec<u8>, OutOfMemory>
        requires { count ≡ 0 ⊎ (start + count ≤ size_of self.now.tree inode) }
        ensures bytes { IfOk result (λ v. v.items ≡ take count (drop start (bytes_of self.now.tree inode))) }
        ensures count { IfOk result (λ v. length v.items ≤ count) }
        ensures wanting { OnErr result (0 < length (take count (drop start (bytes_of self.now.tree inode)))) }
    {
        let mut out = Vec::new(alloc);
        if count == 0 {
            return Ok(out);
        }
        self.tree.read(inode, start, count, &mut out)?;
        Ok(out)
    }

    /// Reads a file. EINVAL for a place below 0; EFAULT where bytes could be read and there is no room.
    #[tactic(auto, using(crate::proofs::Moves::some_moved), unfolding(crate::specs::Transfers::read_file))]
    fn read_file(
        &mut self,
        alloc: Global,
        serial: u64,
        file: OpenFile,
        wanted: u64,
        room: u64,
        place: Place,
    ) -> Answer<Vec<u8>>
        requires { IsSome (at self.old.open_files.files serial) }
        ensures gives { Gives (λ v. v.items) result self.new (settled self.old (read_file self.old (serial, file) wanted room place)) }
        ensures count { IfOk result (λ v. length v.items ≤ wanted) }
        ensures space { IfOk result (λ v. length v.items ≤ room) }
        ensures moves { OnOutOfMemory result (moves_bytes (settled self.old (read_file self.old (serial, file) wanted room place)).0 ≡ true) }
    {
        let start = place_of(&file, place)?;
        let left = self.bytes_left(&file, start, wanted);
        if left != 0 && room == 0 {
            return Err(KernelFault::Errno(Errno::BadAddress));
        }
        let count = left.min(room);
        let bytes = self.bytes_at(alloc, file.inode, start, count)?;
        self.move_on(serial, file, place, start + count);
        Ok(bytes)
    }

    /// Reads a pipe, as `OpenFiles::read_pipe` does.
    fn read_pipe(
        &mut self,
        alloc: Global,
        inode: u64,
        wanted: u64,
        room: u64,
        place: Place,
    ) -> Answer<Vec<u8>>
        ensures gives { Gives (λ v. v.items) result self.new (settled self.old (with_open_files self.old (read_pipe self.old.open_files inode wanted room place))) }
        ensures count { IfOk result (λ v. length v.items ≤ wanted) }
        ensures space { IfOk result (λ v. length v.items ≤ room) }
        ensures moves { OnOutOfMemory result (moves_bytes (settled self.old (with_open_files self.old (read_pipe self.old.open_files inode wanted room place))).0 ≡ true) }
    {
        self.open_files.read_pipe(alloc, inode, wanted, room, place)
    }

    /// Reads a socket: open files that come with the bytes are let go.
    #[tactic(auto, unfolding(crate::specs::Transfers::read_socket))]
    fn read_socket(
        &mut self,
        alloc: Global,
        serial: u64,
        file: OpenFile,
        wanted: u64,
        room: u64,
        place: Place,
    ) -> Answer<ByteList>
        ensures gives { Gives (λ v. v) result self.new (settled self.old (read_socket self.old (serial, file) wanted room place)) }
        ensures count { IfOk result (λ v. length v ≤ wanted) }
        ensures space { IfOk result (λ v. length v ≤ room) }
        ensures moves { OnOutOfMemory result (moves_bytes (settled self.old (read_socket self.old (serial, file) wanted room place)).0 ≡ true) }
    {
        let received = self
            .open_files
            .receive_socket(alloc, serial, file, wanted, room, place)?;
        self.sweep(received.rights);
        Ok(received.bytes)
    }

    /// read and pread64: gives bytes, at most `wanted` and at most as many as there is `room` for in memory. From an empty
    /// pipe that nothing is open to write to it gives none, and from a socket at its end.
    ///
    /// EBADF, also where it isn't open for reading; EISDIR; ESPIPE for a place in a pipe or a socket; EINVAL for one below 0; EAGAIN for an
    /// empty pipe; what a receive of a socket answers; EFAULT where bytes could be read and there is no room. Memory may be wanting only
    /// where bytes are read.
    pub fn read(
        &mut self,
        alloc: Global,
        fd: i64,
        wanted: u64,
        room: u64,
        place: Place,
    ) -> Answer<ByteList>
        ensures gives { Gives (λ v. v) result self.new (read self.old fd wanted room place) }
        ensures count { IfOk result (λ v. length v ≤ wanted) }
        ensures space { IfOk result (λ v. length v ≤ room) }
        ensures moves { OnOutOfMemory result (moves_bytes (read self.old fd wanted room place).0 ≡ true) }
    {
        let (serial, file) = self.open_files.open_file(fd)?;
        if !file.flags.can_read() {
            return Err(KernelFault::Errno(Errno::BadDescriptor));
        }
        if is_of_directory(file.kind) {
            return Err(KernelFault::Errno(Errno::IsDirectory));
        }
        if is_of_socket(file.kind) {
            return self.read_socket(alloc, serial, file, wanted, room, place);
        }
        if is_of_pipe(file.kind) {
            let bytes = self.read_pipe(alloc, file.inode, wanted, room, place)?;
            return Ok(ByteList::from_vec(bytes));
        }
        let bytes = self.read_file(alloc, serial, file, wanted, room, place)?;
        Ok(ByteList::from_vec(bytes))
    }

    /// Where a write begins: at the end with O_APPEND. EINVAL below 0.
    fn write_place(&self, file: &OpenFile, place: Place) -> Result<u64, Errno>
        ensures { Tells result (write_place self.now file.now place) }
    {
        let start = place_of(file, place)?;
        Ok(if file.flags.appends() {
            self.tree.size_of(file.inode)
        } else {
            start
        })
    }

    /// Writes a file. EINVAL for a place below 0; EFBIG at or past the limit of sizes; EFAULT where bytes could be written and
    /// there is none.
    #[tactic(auto, unfolding(crate::specs::Transfers::write_file))]
    fn write_file(
        &mut self,
        alloc: Global,
        now: TimeSpec,
        serial: u64,
        file: OpenFile,
        wanted: u64,
        piece: &[u8],
        place: Place,
    ) -> Answer<u64>
        requires { IsSome (at self.old.open_files.files serial) }
        ensures gives { Gives (λ n. n) result self.new (settled self.old (write_file self.old now (serial, file) wanted piece.now place)) }
        ensures count { IfOk result (λ n. n ≤ wanted) }
    {
        let start = self.write_place(&file, place)?;
        if wanted == 0 {
            return Ok(0);
        }
        let limit = size_limit(&file);
        if start >= limit {
            return Err(KernelFault::Errno(Errno::FileTooLarge));
        }
        if piece.is_empty() {
            return Err(KernelFault::Errno(Errno::BadAddress));
        }
        let count = wanted.min(limit - start).min(piece.len() as u64);
        let bytes = &piece[..count as usize];
        self.tree.write(alloc, now, file.inode, start, bytes)?;
        self.move_on(serial, file, place, start + count);
        Ok(count)
    }

    /// Writes a pipe, as `OpenFiles::write_pipe` does.
    fn write_pipe(&mut self, inode: u64, wanted: u64, piece: &[u8], place: Place) -> Answer<u64>
        ensures gives { GivesAlways (λ n. n) result self.new (settled self.old (with_open_files self.old (write_pipe self.old.open_files inode wanted piece.now place))) }
        ensures count { IfOk result (λ n. n ≤ wanted) }
    {
        self.open_files.write_pipe(inode, wanted, piece, place)
    }

    /// Writes to a socket, as `OpenFiles::write_socket` does.
    fn write_socket(
        &mut self,
        alloc: Global,
        own: Credentials,
        serial: u64,
        file: OpenFile,
        wanted: u64,
        piece: &[u8],
        place: Place,
    ) -> Answer<u64>
        ensures gives { Gives (λ n. n) result self.new (settled self.old (with_open_files self.old (write_socket self.old.open_files own (serial, file) wanted piece.now place))) }
        ensures count { IfOk result (λ n. n ≤ wanted) }
    {
        self.open_files
            .write_socket(alloc, own, serial, file, wanted, piece, place)
    }

    /// write and pwrite64: of the `wanted` bytes as many as the file may get, or as the pipe or the stream has room for, and as `piece` has,
    /// which are those that memory gave. It gives how many. `now` is the real time, which a file's times are set to, and `own` are the
    /// process's credentials, which a message tells.
    ///
    /// EBADF, also where it isn't open for writing; EISDIR; ESPIPE for a place in a pipe or a socket; EINVAL for one below 0; EPIPE for a
    /// pipe that nothing is open to read from; EAGAIN for one without room; what a send on a socket answers; EFBIG at or past the limit of
    /// sizes; EFAULT where bytes could be written and there is none.
    pub fn write(
        &mut self,
        alloc: Global,
        now: TimeSpec,
        own: Credentials,
        fd: i64,
        wanted: u64,
        piece: &[u8],
        place: Place,
    ) -> Answer<u64>
        ensures gives { Gives (λ n. n) result self.new (write self.old now own fd wanted piece.now place) }
        ensures count { IfOk result (λ n. n ≤ wanted) }
    {
        let (serial, file) = self.open_files.open_file(fd)?;
        if !file.flags.can_write() {
            return Err(KernelFault::Errno(Errno::BadDescriptor));
        }
        if is_of_directory(file.kind) {
            return Err(KernelFault::Errno(Errno::IsDirectory));
        }
        if is_of_socket(file.kind) {
            return self.write_socket(alloc, own, serial, file, wanted, piece, place);
        }
        if is_of_pipe(file.kind) {
            return self.write_pipe(file.inode, wanted, piece, place);
        }
        self.write_file(alloc, now, serial, file, wanted, piece, place)
    }
}
