//! The flags of an open file.

ghost use Rattle.std.specs.Prelude.{⊤, ◌≡◌, [], ◌∷◌, codes};
ghost use Rattle.kernel_values.specs.OpenFlags.{appends, asks_write, can_read, can_write, closes_on_exec, creates, from_word, is_exclusive, is_large, moved, status_flags, to_word, truncates, wants_directory, with_status};

use crate::abi::AbiKind;
use bitflags::{Flag, Flags, bitflag_items};

/// The flags of open that the kernel keeps or acts on: the access mode and the `O_` flags of
/// `include/uapi/asm-generic/fcntl.h`, at the bits that i386 has.
#[derive(Clone, Copy, Debug, PartialEq, Eq)]
pub struct OpenFlags(u32);

bitflag_items! {
    impl OpenFlags: u32 {
        const WRITE_ONLY = 0x1;
        const READ_WRITE = 0x2;
        const CREATE = 0x40;
        const EXCLUSIVE = 0x80;
        const TRUNCATE = 0x200;
        const APPEND = 0x400;
        const NONBLOCK = 0x800;
        const DIRECT = 0x4000;
        const LARGE_FILE = 0x8000;
        const DIRECTORY = 0x10000;
        const NO_FOLLOW = 0x20000;
        const CLOSE_ON_EXEC = 0x80000;
    }
}

impl Flags for OpenFlags {
    type Bits = u32;

    ghost exact = { ⊤ };

    ghost table = { (codes "WRITE_ONLY", 0x1) ∷ (codes "READ_WRITE", 0x2) ∷ (codes "CREATE", 0x40) ∷ (codes "EXCLUSIVE", 0x80) ∷ (codes "TRUNCATE", 0x200) ∷ (codes "APPEND", 0x400) ∷ (codes "NONBLOCK", 0x800) ∷ (codes "DIRECT", 0x4000) ∷ (codes "LARGE_FILE", 0x8000) ∷ (codes "DIRECTORY", 0x10000) ∷ (codes "NO_FOLLOW", 0x20000) ∷ (codes "CLOSE_ON_EXEC", 0x80000) ∷ [] };

    ghost set_of = { λ f. f.0 };

    fn flags<'a>() -> &'a [Flag<OpenFlags>] {
        OpenFlags::FLAGS
    }

    fn bits(&self) -> u32 {
        self.0
    }

    fn from_bits_retain(bits: u32) -> OpenFlags {
        OpenFlags(bits)
    }
}

/// The bits of all flags, by i386.
const KNOWN: u32 = 0xbcec3;
/// The flags that have the same bit on i386 and on Arm.
const COMMON: u32 = 0x80ec3;
/// The access mode, and the flags that an open file keeps: F_GETFL tells them.
const STATUS: u32 = 0x3cc03;
/// The flags that F_SETFL changes: `APPEND` and `NONBLOCK`.
const CHANGING: u32 = 0xc00;
/// All bits but those.
const STAYING: u32 = 0xffff_f3ff;

/// A flag at another bit, where it is set.
fn moved(word: u32, from: u32, to: u32) -> u32
    ensures { result ≡ moved word from to }
{
    if word & from == from { to } else { 0 }
}

impl OpenFlags {
    /// The flags of a word of open. Bits that are no flag are left out.
    #[tactic(auto, unfolding(crate::specs::OpenFlags::from_word))]
    pub fn from_word(abi: AbiKind, word: u32) -> OpenFlags
        ensures { result ≡ from_word abi word }
    {
        match abi {
            AbiKind::Ia32 => OpenFlags(word & KNOWN),
            AbiKind::ArmEabi => OpenFlags(
                word & COMMON
                    | moved(word, 0x1_0000, 0x4000)
                    | moved(word, 0x2_0000, 0x8000)
                    | moved(word, 0x4000, 0x1_0000)
                    | moved(word, 0x8000, 0x2_0000),
            ),
        }
    }

    /// The word that spells the flags.
    #[tactic(auto, unfolding(crate::specs::OpenFlags::to_word))]
    pub fn to_word(&self, abi: AbiKind) -> u32
        ensures { result ≡ to_word abi self.now }
    {
        match abi {
            AbiKind::Ia32 => self.0,
            AbiKind::ArmEabi => self.0 & COMMON
                | moved(self.0, 0x4000, 0x1_0000)
                | moved(self.0, 0x8000, 0x2_0000)
                | moved(self.0, 0x1_0000, 0x4000)
                | moved(self.0, 0x2_0000, 0x8000),
        }
    }

    /// Whether an open file with these flags may be read from.
    #[tactic(auto, unfolding(crate::specs::OpenFlags::can_read))]
    pub fn can_read(&self) -> bool
        ensures { result ≡ can_read self.now }
    {
        self.0 % 4 == 0 || self.0 % 4 == 2
    }

    /// Whether an open file with these flags may be written to.
    #[tactic(auto, unfolding(crate::specs::OpenFlags::can_write))]
    pub fn can_write(&self) -> bool
        ensures { result ≡ can_write self.now }
    {
        self.0 % 4 == 1 || self.0 % 4 == 2
    }

    /// Whether open counts these flags as write access, which access mode 3 is too.
    #[tactic(auto, unfolding(crate::specs::OpenFlags::asks_write))]
    pub fn asks_write(&self) -> bool
        ensures { result ≡ asks_write self.now }
    {
        self.0 % 4 != 0
    }

    /// `O_CREAT`
    #[tactic(auto, unfolding(crate::specs::OpenFlags::creates))]
    pub fn creates(&self) -> bool
        ensures { result ≡ creates self.now }
    {
        self.contains(OpenFlags::CREATE)
    }

    /// `O_EXCL`
    #[tactic(auto, unfolding(crate::specs::OpenFlags::is_exclusive))]
    pub fn is_exclusive(&self) -> bool
        ensures { result ≡ is_exclusive self.now }
    {
        self.contains(OpenFlags::EXCLUSIVE)
    }

    /// `O_TRUNC`
    #[tactic(auto, unfolding(crate::specs::OpenFlags::truncates))]
    pub fn truncates(&self) -> bool
        ensures { result ≡ truncates self.now }
    {
        self.contains(OpenFlags::TRUNCATE)
    }

    /// `O_APPEND`
    #[tactic(auto, unfolding(crate::specs::OpenFlags::appends))]
    pub fn appends(&self) -> bool
        ensures { result ≡ appends self.now }
    {
        self.contains(OpenFlags::APPEND)
    }

    /// `O_LARGEFILE`
    #[tactic(auto, unfolding(crate::specs::OpenFlags::is_large))]
    pub fn is_large(&self) -> bool
        ensures { result ≡ is_large self.now }
    {
        self.contains(OpenFlags::LARGE_FILE)
    }

    /// `O_DIRECTORY`
    #[tactic(auto, unfolding(crate::specs::OpenFlags::wants_directory))]
    pub fn wants_directory(&self) -> bool
        ensures { result ≡ wants_directory self.now }
    {
        self.contains(OpenFlags::DIRECTORY)
    }

    /// `O_CLOEXEC`
    #[tactic(auto, unfolding(crate::specs::OpenFlags::closes_on_exec))]
    pub fn closes_on_exec(&self) -> bool
        ensures { result ≡ closes_on_exec self.now }
    {
        self.contains(OpenFlags::CLOSE_ON_EXEC)
    }

    /// What an open file keeps of the flags that it was opened with.
    #[tactic(auto, unfolding(crate::specs::OpenFlags::status_flags))]
    pub fn status_flags(&self) -> OpenFlags
        ensures { result ≡ status_flags self.now }
    {
        OpenFlags(self.0 & STATUS)
    }

    /// The same flags with `O_APPEND` and `O_NONBLOCK` of others.
    #[tactic(auto, unfolding(crate::specs::OpenFlags::with_status))]
    pub fn with_status(&self, given: OpenFlags) -> OpenFlags
        ensures { result ≡ with_status self.now given }
    {
        OpenFlags(self.0 & STAYING | given.0 & CHANGING)
    }
}
