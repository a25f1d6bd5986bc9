//! The calls of the kernel on files and descriptors.

ghost use Rattle.std.specs.Prelude.{◌≡◌, ◌≤◌, true, length, IfOk};
ghost use Rattle.kernel_values.specs.Outcome.{Gives, GivesAlways, GivesTold, OnOutOfMemory, Tells};
ghost use Rattle.open_files.specs.Transfers.{moves_bytes};
ghost use Rattle.native_kernel.specs.Operations.{can_use, change_directory, close, current_directory, duplicate, duplicate_to, fd_flags, image_bytes, image_directory, image_file, maker, most_descriptors, open_flags, open_path, read, seek, set_fd_flags, set_open_flags, write};

use crate::state::Kernel;
use file_store::{Maker, Place};
use kernel_values::{AT_FDCWD, Answer, ByteList, Errno, OpenFlags, TimeSpec};
use std::alloc::Global;

impl Kernel {
    /// The soft limit of descriptors.
    #[tactic(auto, unfolding(crate::specs::Operations::most_descriptors))]
    pub fn most_descriptors(&self) -> u32
        ensures { result ≡ most_descriptors self.now }
    {
        self.limits.most_descriptors()
    }

    /// Who makes a file, and when.
    #[tactic(auto, unfolding(crate::specs::Operations::maker))]
    pub(crate) fn maker(&self) -> Maker
        ensures { result ≡ maker self.now }
    {
        Maker {
            uid: self.process.uid,
            gid: self.process.gid,
            time: TimeSpec::of_nanoseconds(self.clocks.real()),
        }
    }

    /// Whether a descriptor is open, and for reading and writing where these are asked for. It takes no memory.
    #[tactic(auto, unfolding(crate::specs::Operations::can_use))]
    pub fn can_use(&self, fd: i64, read: bool, write: bool) -> bool
        ensures { result ≡ can_use self.now fd read write }
    {
        self.files.open_files.can_use(fd, read, write)
    }

    /// Opens a path, from the directory of descriptor `from` or from the working directory (-100), at the lowest free
    /// descriptor. In this order: EMFILE, ENFILE, EINVAL for `O_CREAT` with `O_DIRECTORY`, what refuses the path, ENOENT,
    /// EISDIR for a file to be made behind a slash, EEXIST, EISDIR, ENOTDIR, EOVERFLOW.
    #[tactic(auto, unfolding(crate::specs::Operations::open_path))]
    pub fn open_path(
        &mut self,
        alloc: Global,
        from: i64,
        path: &[u8],
        flags: OpenFlags,
        mode: u32,
    ) -> Answer<u32>
        ensures { Gives (λ n. n) result self.new (open_path self.old from path.now flags mode) }
    {
        let limit = self.most_descriptors();
        let maker = self.maker();
        self.files
            .open_path(alloc, limit, &maker, from, path, flags, mode)
    }

    /// Closes a descriptor. EBADF. It takes no memory.
    #[tactic(auto, unfolding(crate::specs::Operations::close))]
    pub fn close(&mut self, fd: i64) -> Answer<()>
        ensures { GivesAlways (λ _. tt) result self.new (close self.old fd) }
    {
        self.files.close(fd)
    }

    /// Reads bytes, at most `wanted` and at most `room`. EBADF, also where it isn't open for reading; EISDIR; of a pipe or socket
    /// ESPIPE for an offset, and EAGAIN where no bytes wait and more may come; EINVAL for a stream that isn't connected, and for an offset
    /// below 0; EFAULT where bytes could move and there is no room. Memory may be wanting only where bytes move.
    #[tactic(auto, unfolding(crate::specs::Operations::read))]
    pub fn read(
        &mut self,
        alloc: Global,
        fd: i64,
        wanted: u64,
        room: u64,
        place: Place,
    ) -> Answer<ByteList>
        ensures given { Gives (λ v. v) result self.new (read self.old fd wanted room place) }
        ensures count { IfOk result (λ v. length v ≤ wanted) }
        ensures space { IfOk result (λ v. length v ≤ room) }
        ensures moves { OnOutOfMemory result (moves_bytes (read self.old fd wanted room place).0 ≡ true) }
    {
        self.files.read(alloc, fd, wanted, room, place)
    }

    /// Writes bytes: of the `wanted` ones as many as fit below the file's limit, or into the pipe or stream, and as `piece` has.
    /// EBADF, also where it isn't open for writing; EISDIR; of a pipe or socket ESPIPE for an offset, EPIPE where nothing will read them,
    /// with SIGPIPE but for datagrams, and EAGAIN where they don't fit; ENOTCONN, ECONNREFUSED and EMSGSIZE of sockets; EINVAL for an offset below 0; EFBIG; EFAULT where bytes could move and
    /// `piece` is empty.
    #[tactic(auto, unfolding(crate::specs::Operations::write))]
    pub fn write(
        &mut self,
        alloc: Global,
        fd: i64,
        wanted: u64,
        piece: &[u8],
        place: Place,
    ) -> Answer<u64>
        ensures gives { Gives (λ n. n) result self.new (write self.old fd wanted piece.now place) }
        ensures count { IfOk result (λ n. n ≤ wanted) }
    {
        let now = TimeSpec::of_nanoseconds(self.clocks.real());
        let own = self.credentials();
        let answer = self.files.write(alloc, now, own, fd, wanted, piece, place);
        self.signal_broken_pipe(fd, &answer);
        answer
    }

    /// Moves the position: whence 0 from the start, 1 from the position, 2 from the end. EBADF; ESPIPE for a pipe; EINVAL
    /// for another whence, for a position below 0 or above 2^40, and for a directory from its end or above 2^31 - 1. It
    /// takes no memory.
    #[tactic(auto, unfolding(crate::specs::Operations::seek))]
    pub fn seek(&mut self, fd: i64, offset: i64, whence: u32) -> Answer<i64>
        ensures { GivesAlways (λ p. p) result self.new (seek self.old fd offset whence) }
    {
        self.files.seek(fd, offset, whence)
    }

    /// Another descriptor of the same open file, the lowest free one from `least` on; `dup` where `least` is negative.
    /// EBADF; EINVAL for a `least` at or above the limit; EMFILE; ENFILE.
    #[tactic(auto, unfolding(crate::specs::Operations::duplicate))]
    pub fn duplicate(&mut self, fd: i64, least: i64, cloexec: bool) -> Answer<u32>
        ensures { Gives (λ n. n) result self.new (duplicate self.old fd least cloexec) }
    {
        let limit = self.most_descriptors();
        self.files.open_files.duplicate(limit, fd, least, cloexec)
    }

    /// Makes a number name the same open file, as dup2 does, or as dup3 where `three` holds. EBADF; for dup3 EINVAL for
    /// flags other than `O_CLOEXEC` and for the same number; EBADF for a negative number and one at or above the limit.
    #[tactic(auto, unfolding(crate::specs::Operations::duplicate_to))]
    pub fn duplicate_to(&mut self, fd: i64, new: i64, flags: u32, three: bool) -> Answer<u32>
        ensures { Gives (λ n. n) result self.new (duplicate_to self.old fd new flags three) }
    {
        let limit = self.most_descriptors();
        self.files.duplicate_to(limit, fd, new, flags, three)
    }

    /// The flags of a descriptor: `FD_CLOEXEC`, 1, or 0. EBADF. It takes no memory.
    #[tactic(auto, unfolding(crate::specs::Operations::fd_flags))]
    pub fn fd_flags(&self, fd: i64) -> Result<u32, Errno>
        ensures { Tells result (fd_flags self.now fd) }
    {
        self.files.open_files.fd_flags(fd)
    }

    /// Sets the flags of a descriptor, by bit 0. EBADF. It takes no memory.
    #[tactic(auto, unfolding(crate::specs::Operations::set_fd_flags))]
    pub fn set_fd_flags(&mut self, fd: i64, word: u32) -> Answer<()>
        ensures { GivesAlways (λ _. tt) result self.new (set_fd_flags self.old fd word) }
    {
        self.files.open_files.set_fd_flags(fd, word)
    }

    /// The flags of a descriptor's open file. EBADF. It takes no memory.
    #[tactic(auto, unfolding(crate::specs::Operations::open_flags))]
    pub fn open_flags(&self, fd: i64) -> Result<OpenFlags, Errno>
        ensures { Tells result (open_flags self.now fd) }
    {
        self.files.open_files.open_flags(fd)
    }

    /// Sets `O_APPEND` and `O_NONBLOCK` of a descriptor's open file. EBADF. It takes no memory.
    #[tactic(auto, unfolding(crate::specs::Operations::set_open_flags))]
    pub fn set_open_flags(&mut self, fd: i64, flags: OpenFlags) -> Answer<()>
        ensures { GivesAlways (λ _. tt) result self.new (set_open_flags self.old fd flags) }
    {
        self.files.open_files.set_open_flags(fd, flags)
    }

    /// Changes the working directory. What refuses the path; ENOTDIR for a file. It takes no memory.
    #[tactic(auto, unfolding(crate::specs::Operations::change_directory))]
    pub fn change_directory(&mut self, path: &[u8]) -> Answer<()>
        ensures { GivesAlways (λ _. tt) result self.new (change_directory self.old path.now) }
    {
        self.files.change_directory(AT_FDCWD, path)
    }

    /// The path of the working directory with a zero at its end. ENAMETOOLONG above 4,096 bytes, ERANGE above `size`.
    #[tactic(auto, unfolding(crate::specs::Operations::current_directory))]
    pub fn current_directory(&self, alloc: Global, size: u64) -> Answer<ByteList>
        ensures told { GivesTold (λ v. v) result (current_directory self.now size) }
        ensures length { IfOk result (λ v. length v ≤ 4096) }
    {
        let text = self.files.tree.current_directory(alloc, size)?;
        Ok(ByteList::from_vec(text))
    }

    /// Makes a directory of the image. What refuses the path.
    #[tactic(auto, unfolding(crate::specs::Operations::image_directory))]
    pub fn image_directory(&mut self, alloc: Global, path: &[u8], inode: u64) -> Answer<()>
        ensures { Gives (λ _. tt) result self.new (image_directory self.old path.now inode) }
    {
        self.files.image_directory(alloc, path, inode)
    }

    /// Makes a file of zeros of the image. EFBIG above 2^40 bytes; what refuses the path.
    #[tactic(auto, unfolding(crate::specs::Operations::image_file))]
    pub fn image_file(&mut self, alloc: Global, path: &[u8], inode: u64, size: u64) -> Answer<()>
        ensures { Gives (λ _. tt) result self.new (image_file self.old path.now inode size) }
    {
        self.files.image_file(alloc, path, inode, size)
    }

    /// Puts bytes into a file of the image. EFBIG where they end above 2^40 bytes; what refuses the path.
    #[tactic(auto, unfolding(crate::specs::Operations::image_bytes))]
    pub fn image_bytes(
        &mut self,
        alloc: Global,
        path: &[u8],
        offset: u64,
        bytes: &[u8],
    ) -> Answer<()>
        ensures { Gives (λ _. tt) result self.new (image_bytes self.old path.now offset bytes.now) }
    {
        self.files.image_bytes(alloc, path, offset, bytes)
    }
}
