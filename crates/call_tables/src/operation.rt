//! The calls, in kinds. Each kind has the name of the module that serves it.

/// A call, by its kind and the name that `arch/x86/entry/syscalls/syscall_32.tbl` and
/// `arch/arm/tools/syscall.tbl` give it.
#[derive(Clone, Copy, Debug, PartialEq, Eq)]
pub enum Operation {
    Files(FileOperation),
    Readiness(ReadinessOperation),
    Sockets(SocketOperation),
    Times(TimeOperation),
    Limits(LimitOperation),
    Identity(IdentityOperation),
    Signals(SignalOperation),
    Returns(ReturnOperation),
}

/// A call on files.
#[derive(Clone, Copy, Debug, PartialEq, Eq)]
pub enum FileOperation {
    Paths(PathOperation),
    Names(NameOperation),
    Descriptors(DescriptorOperation),
    Pipes(PipeOperation),
    Transfers(TransferOperation),
    Vectors(VectorOperation),
    Sending(SendingOperation),
    Listings(ListingOperation),
    Status(StatusOperation),
    Retiming(RetimingOperation),
    Lengths(LengthOperation),
}

/// The calls on a path as a whole: the working directory, and opening.
#[derive(Clone, Copy, Debug, PartialEq, Eq)]
pub enum PathOperation {
    Chdir,
    Getcwd,
    Open,
    Openat,
}

/// The calls that make, remove and move names.
#[derive(Clone, Copy, Debug, PartialEq, Eq)]
pub enum NameOperation {
    Mkdir,
    Mkdirat,
    Rename,
    Rmdir,
    Unlink,
    Unlinkat,
}

/// The calls on descriptors.
#[derive(Clone, Copy, Debug, PartialEq, Eq)]
pub enum DescriptorOperation {
    Close,
    Dup,
    Dup2,
    Dup3,
    Fcntl,
    Fcntl64,
}

/// The calls on pipes alone: those that make them, and ioctl, which tells the bytes that wait in one.
#[derive(Clone, Copy, Debug, PartialEq, Eq)]
pub enum PipeOperation {
    Ioctl,
    Pipe,
    Pipe2,
}

/// The calls that move bytes or positions.
#[derive(Clone, Copy, Debug, PartialEq, Eq)]
pub enum TransferOperation {
    Llseek,
    Lseek,
    Pread64,
    Pwrite64,
    Read,
    Write,
}

/// The calls that move the bytes of vectors.
#[derive(Clone, Copy, Debug, PartialEq, Eq)]
pub enum VectorOperation {
    Preadv,
    Pwritev,
    Readv,
    Writev,
}

/// The calls that send bytes of a file to another descriptor.
#[derive(Clone, Copy, Debug, PartialEq, Eq)]
pub enum SendingOperation {
    Sendfile,
    Sendfile64,
}

/// The calls that list directories.
#[derive(Clone, Copy, Debug, PartialEq, Eq)]
pub enum ListingOperation {
    Getdents,
    Getdents64,
}

/// The calls that tell a status.
#[derive(Clone, Copy, Debug, PartialEq, Eq)]
pub enum StatusOperation {
    Fstat,
    Fstat64,
    Fstatat64,
    Stat,
    Stat64,
}

/// The calls that set a file's times.
#[derive(Clone, Copy, Debug, PartialEq, Eq)]
pub enum RetimingOperation {
    Utimensat,
}

/// The calls that set a file's length.
#[derive(Clone, Copy, Debug, PartialEq, Eq)]
pub enum LengthOperation {
    Fallocate,
    Ftruncate,
    Ftruncate64,
    Truncate,
    Truncate64,
}

/// The calls that tell what descriptors are ready for.
#[derive(Clone, Copy, Debug, PartialEq, Eq)]
pub enum ReadinessOperation {
    Newselect,
    Poll,
}

/// The calls on Unix sockets.
#[derive(Clone, Copy, Debug, PartialEq, Eq)]
pub enum SocketOperation {
    Accept,
    Accept4,
    Bind,
    Connect,
    Getpeername,
    Getsockname,
    Listen,
    Shutdown,
    Socket,
    Socketpair,
}

/// The calls on clocks.
#[derive(Clone, Copy, Debug, PartialEq, Eq)]
pub enum TimeOperation {
    ClockGetres,
    ClockGettime,
    ClockNanosleep,
    ClockSettime,
    Gettimeofday,
    Nanosleep,
}

/// The calls on limits of resources.
#[derive(Clone, Copy, Debug, PartialEq, Eq)]
pub enum LimitOperation {
    Prlimit64,
    Setrlimit,
    Ugetrlimit,
}

/// The calls on the process itself: who it is, what it used, and its end.
#[derive(Clone, Copy, Debug, PartialEq, Eq)]
pub enum IdentityOperation {
    Exit,
    ExitGroup,
    Getgid32,
    Getpid,
    Getrusage,
    Getuid32,
}

/// The calls on signals and on the interval timer.
#[derive(Clone, Copy, Debug, PartialEq, Eq)]
pub enum SignalOperation {
    Getitimer,
    Kill,
    RtSigaction,
    RtSigpending,
    RtSigprocmask,
    RtSigqueueinfo,
    Setitimer,
    Sigaction,
    Sigaltstack,
    Sigprocmask,
}

/// The returns from handlers of signals.
#[derive(Clone, Copy, Debug, PartialEq, Eq)]
pub enum ReturnOperation {
    RtSigreturn,
    Sigreturn,
}
