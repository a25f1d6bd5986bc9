//! The errors that a call answers.

ghost use Rattle.std.specs.Prelude.{◌≡◌, ◌≤◌};
ghost use Rattle.kernel_values.specs.Errno.{errno_word, number};
ghost use Rattle.kernel_values.specs.declared.errno.KernelFault.TheVariants as faults;

use std::alloc::{AllocError, AllocFailed};

/// The error numbers that a call of the kernel answers, by `include/uapi/asm-generic/errno-base.h`
/// and `include/uapi/asm-generic/errno.h`. They are the same on i386 and arm.
#[derive(Clone, Copy, Debug, PartialEq, Eq)]
pub enum Errno {
    /// EPERM
    NotPermitted,
    /// ENOENT
    NoEntry,
    /// ESRCH
    NoProcess,
    /// EINTR
    Interrupted,
    /// EBADF
    BadDescriptor,
    /// EAGAIN
    TryAgain,
    /// ENOMEM
    NoMemory,
    /// EFAULT
    BadAddress,
    /// EBUSY
    Busy,
    /// EEXIST
    Exists,
    /// ENODEV
    NoDevice,
    /// ENOTDIR
    NotDirectory,
    /// EISDIR
    IsDirectory,
    /// EINVAL
    InvalidArgument,
    /// ENFILE
    TableFull,
    /// EMFILE
    TooManyDescriptors,
    /// ENOTTY
    NotTerminal,
    /// EFBIG
    FileTooLarge,
    /// ESPIPE
    IllegalSeek,
    /// EPIPE
    BrokenPipe,
    /// EDOM
    OutOfDomain,
    /// ERANGE
    OutOfRange,
    /// ENAMETOOLONG
    NameTooLong,
    /// ENOSYS
    NoCall,
    /// ENOTEMPTY
    NotEmpty,
    /// ELOOP
    Loop,
    /// EOVERFLOW
    Overflow,
    /// ENOTSOCK
    NotSocket,
    /// EMSGSIZE
    MessageTooLong,
    /// EPROTOTYPE
    WrongSocketType,
    /// ENOPROTOOPT
    NoProtocolOption,
    /// EPROTONOSUPPORT
    ProtocolNotSupported,
    /// ESOCKTNOSUPPORT
    SocketTypeNotSupported,
    /// EOPNOTSUPP
    OperationNotSupported,
    /// EAFNOSUPPORT
    FamilyNotSupported,
    /// EADDRINUSE
    AddressInUse,
    /// ENOBUFS
    NoBufferSpace,
    /// EISCONN
    AlreadyConnected,
    /// ENOTCONN
    NotConnected,
    /// ECONNREFUSED
    ConnectionRefused,
}

impl Errno {
    /// The number of the UAPI header.
    pub fn number(&self) -> u32
        ensures header { result ≡ number self.now }
        ensures positive { 1 ≤ result }
    {
        match self {
            Errno::NotPermitted => 1,
            Errno::NoEntry => 2,
            Errno::NoProcess => 3,
            Errno::Interrupted => 4,
            Errno::BadDescriptor => 9,
            Errno::TryAgain => 11,
            Errno::NoMemory => 12,
            Errno::BadAddress => 14,
            Errno::Busy => 16,
            Errno::Exists => 17,
            Errno::NoDevice => 19,
            Errno::NotDirectory => 20,
            Errno::IsDirectory => 21,
            Errno::InvalidArgument => 22,
            Errno::TableFull => 23,
            Errno::TooManyDescriptors => 24,
            Errno::NotTerminal => 25,
            Errno::FileTooLarge => 27,
            Errno::IllegalSeek => 29,
            Errno::BrokenPipe => 32,
            Errno::OutOfDomain => 33,
            Errno::OutOfRange => 34,
            Errno::NameTooLong => 36,
            Errno::NoCall => 38,
            Errno::NotEmpty => 39,
            Errno::Loop => 40,
            Errno::Overflow => 75,
            Errno::NotSocket => 88,
            Errno::MessageTooLong => 90,
            Errno::WrongSocketType => 91,
            Errno::NoProtocolOption => 92,
            Errno::ProtocolNotSupported => 93,
            Errno::SocketTypeNotSupported => 94,
            Errno::OperationNotSupported => 95,
            Errno::FamilyNotSupported => 97,
            Errno::AddressInUse => 98,
            Errno::NoBufferSpace => 105,
            Errno::AlreadyConnected => 106,
            Errno::NotConnected => 107,
            Errno::ConnectionRefused => 111,
        }
    }

    /// The result word of a call that answers this number: its two's complement in 32 bits.
    #[tactic(auto, unfolding(crate::specs::Errno::errno_word))]
    pub fn word(&self) -> u32
        ensures { result ≡ errno_word self.now }
    {
        self.number().wrapping_neg()
    }
}

/// Memory ran out. No contract says when.
#[derive(Clone, Copy, Debug, PartialEq, Eq)]
pub struct OutOfMemory;

impl From<AllocError> for OutOfMemory {
    fn from(_e: AllocError) -> OutOfMemory {
        OutOfMemory
    }
}

impl<T: Drop> From<AllocFailed<T>> for OutOfMemory {
    fn from(_e: AllocFailed<T>) -> OutOfMemory {
        OutOfMemory
    }
}

/// Why an operation of the kernel has no value.
#[derive(Clone, Copy, Debug, PartialEq, Eq)]
pub enum KernelFault {
    /// The operation's definition refuses with this number.
    Errno(Errno),
    /// Memory ran out.
    OutOfMemory,
}

/// What a call of the kernel answers.
pub type Answer<T> = Result<T, KernelFault>;

impl From<Errno> for KernelFault {
    ghost from_gives = { λ errno fault. fault ≡ faults.Errno errno };

    fn from(errno: Errno) -> KernelFault {
        KernelFault::Errno(errno)
    }
}

impl From<OutOfMemory> for KernelFault {
    ghost from_gives = { λ _ fault. fault ≡ faults.OutOfMemory };

    fn from(_: OutOfMemory) -> KernelFault {
        KernelFault::OutOfMemory
    }
}
