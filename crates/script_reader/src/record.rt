//! What a line of a script says.

use abi_registers::Registers;
use kernel_values::{AbiKind, ByteList, Credentials, PathText, SigInfo, Usage};

/// What a line says that isn't passed over.
#[derive(Drop)]
pub enum Record {
    /// The first line: which ABI the script is of, in version 1 of its grammar.
    Header {
        abi: AbiKind,
    },
    /// The real and the monotonic clock, in nanoseconds, each below 2^62.
    Clock {
        real: u64,
        monotonic: u64,
    },
    /// Whose process it is, and whether it has the privilege.
    Who {
        owner: Credentials,
        privileged: bool,
    },
    /// What the process has used.
    Usage {
        usage: Usage,
    },
    /// The return address of signal handlers.
    Restorer {
        address: u32,
    },
    /// A page at a multiple of 4,096, with at most so many bytes at its front.
    Page {
        at: u32,
        writable: bool,
        bytes: Vec<u8>,
    },
    /// A directory of the image, at a path from the root.
    Dir {
        path: PathText,
        inode: u64,
    },
    /// A file of the image and how many bytes it has, at most 2^40.
    File {
        path: PathText,
        inode: u64,
        size: u64,
    },
    /// Bytes of a file of the image, from an offset on.
    Bytes {
        path: PathText,
        offset: u64,
        bytes: ByteList,
    },
    /// A lock that another process has on a file of the image: of writers or of readers, from its first byte on. Length 0 has
    /// no end; start and length together are at most 2^63.
    Lock {
        path: PathText,
        write: bool,
        start: u64,
        length: u64,
        /// The process, below 2^31.
        pid: u32,
    },
    /// Bytes in mapped pages, whatever their rights.
    Poke {
        at: u32,
        bytes: Vec<u8>,
    },
    /// A call, with all registers at its entry.
    Call {
        registers: Registers,
    },
    /// Nanoseconds that pass on both clocks, below 2^62.
    Advance {
        nanos: u64,
    },
    /// A signal that another process sends: its number is 1 to 64, its errno 0. Code and value are 0 where it is posted, and
    /// where it is queued the code is -1.
    Post {
        info: SigInfo,
    },
    /// The state is to be written.
    Show,
}
