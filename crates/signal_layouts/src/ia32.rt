//! The frames of handlers on i386: `struct sigframe_ia32` and `struct rt_sigframe_ia32` of
//! `arch/x86/include/asm/sigframe.h`, with `struct sigcontext_32` of `arch/x86/include/uapi/asm/sigcontext.h`.

ghost use Rattle.std.specs.Prelude.{◌≡◌, ◌≤◌, ◌+◌, ◌/◌, ◌^◌, length, refl};
ghost use Rattle.signal_layouts.specs.Ia32.{context_row, frame, plain_frame, registers_in};

use crate::infos::{info_in, info_words};
use crate::stacks::{Stack32, stack_in, stack_words};
use crate::words::half_at;
use kernel_values::SigInfo;
use layout_laws::Field::{I32, U32, U64};
use layout_laws::Misfit::Low;
use layout_laws::Offset::At;
use layout_laws::{Column, Table, Tabled};

/// The code behind a plain frame: pop eax, mov 0x77 to eax, int 0x80.
const PLAIN_CODE: u64 = 0x80cd_0000_0077_b858;

/// The code behind a frame with information: mov 0xad to eax, int 0x80, and a zero.
const CODE: u64 = 0x0080_cd00_0000_adb8;

/// The frame of a handler without information, 732 bytes. What the processor's floating point unit would fill is 0.
#[derive(Clone, Copy, Debug, PartialEq, Eq)]
pub struct Ia32PlainFrame {
    /// Where the handler returns to.
    pub return_address: u32,
    pub signal: u32,
    /// The registers of what was interrupted: eax, ebx, ecx, edx, esi, edi, ebp, esp, eip, eflags.
    pub registers: [u32; 10],
    /// The bits of the signals that were blocked: the low 32 in the context, the others behind it.
    pub mask: u64,
}

/// The table of `Ia32PlainFrame`.
pub const IA32_PLAIN_FRAME: Table = Table {
    size: At(732),
    columns: &[
        Column(U32, At(0), Low), // return address
        Column(U32, At(4), Low), // signal
        Column(U32, At(8), Low), // gs
        Column(U32, At(12), Low), // fs
        Column(U32, At(16), Low), // es
        Column(U32, At(20), Low), // ds
        Column(U32, At(24), Low), // edi
        Column(U32, At(28), Low), // esi
        Column(U32, At(32), Low), // ebp
        Column(U32, At(36), Low), // esp
        Column(U32, At(40), Low), // ebx
        Column(U32, At(44), Low), // edx
        Column(U32, At(48), Low), // ecx
        Column(U32, At(52), Low), // eax
        Column(U32, At(56), Low), // trapno
        Column(U32, At(60), Low), // err
        Column(U32, At(64), Low), // eip
        Column(U32, At(68), Low), // cs
        Column(U32, At(72), Low), // eflags
        Column(U32, At(76), Low), // esp again
        Column(U32, At(80), Low), // ss
        Column(U32, At(84), Low), // fpstate
        Column(U32, At(88), Low), // low mask
        Column(U32, At(92), Low), // cr2
        Column(U32, At(720), Low), // high mask
        Column(U64, At(724), Low), // code
    ],
};

/// The words of `struct sigcontext`: segments and what follows an exception are constants, and esp stands twice.
fn context_words(registers: &[u32; 10], mask: u64) -> [u64; 22]
    ensures { result ≡ context_row registers.now mask }
{
    let r = registers;
    [
        0,
        0,
        0x2b,
        0x2b,
        u64::from(r[5]),
        u64::from(r[4]),
        u64::from(r[6]),
        u64::from(r[7]),
        u64::from(r[1]),
        u64::from(r[3]),
        u64::from(r[2]),
        u64::from(r[0]),
        0,
        0,
        u64::from(r[8]),
        0x23,
        u64::from(r[9]),
        u64::from(r[7]),
        0x2b,
        0,
        mask,
        0,
    ]
}

/// The registers in the words of `struct sigcontext` from a place of a row on.
fn registers_in(row: &[u64], place: usize) -> [u32; 10]
    requires { place + 22 ≤ length row.now }
    ensures { result ≡ registers_in row.now place }
{
    [
        half_at(row, place + 11),
        half_at(row, place + 8),
        half_at(row, place + 10),
        half_at(row, place + 9),
        half_at(row, place + 5),
        half_at(row, place + 4),
        half_at(row, place + 6),
        half_at(row, place + 7),
        half_at(row, place + 14),
        half_at(row, place + 16),
    ]
}

impl Tabled for Ia32PlainFrame {
    ghost shape = { plain_frame };

    fn table() -> Table {
        IA32_PLAIN_FRAME
    }

    fn put_row(&self, row: &mut [u64]) {
        let mut words = [0; 26];
        words[0] = u64::from(self.return_address);
        words[1] = u64::from(self.signal);
        words[2..24].copy_from_slice(&context_words(&self.registers, self.mask));
        words[24] = self.mask / 0x1_0000_0000;
        words[25] = PLAIN_CODE;
        row.copy_from_slice(&words);
    }

    fn of_row(row: &[u64]) -> Self {
        Ia32PlainFrame {
            return_address: half_at(row, 0),
            signal: half_at(row, 1),
            registers: registers_in(row, 2),
            mask: u64::from(half_at(row, 22)) + u64::from(half_at(row, 24)) * 0x1_0000_0000,
        }
    }

    ghost sound = { refl };
}

/// The frame of a handler with information, 268 bytes.
#[derive(Clone, Copy, Debug, PartialEq, Eq)]
pub struct Ia32Frame {
    /// Where the handler returns to.
    pub return_address: u32,
    /// Where the information stands.
    pub info_at: u32,
    /// Where the context stands.
    pub context_at: u32,
    pub info: SigInfo,
    /// The alternate stack as it is told at the stack pointer of what was interrupted.
    pub stack: Stack32,
    /// The registers of what was interrupted: eax, ebx, ecx, edx, esi, edi, ebp, esp, eip, eflags.
    pub registers: [u32; 10],
    /// The bits of the signals that were blocked. The context's own mask, their low 32 bits, is free when read.
    pub mask: u64,
}

/// The table of `Ia32Frame`.
pub const IA32_FRAME: Table = Table {
    size: At(268),
    columns: &[
        Column(U32, At(0), Low), // return address
        Column(U32, At(4), Low), // signal
        Column(U32, At(8), Low), // address of the information
        Column(U32, At(12), Low), // address of the context
        Column(I32, At(16), Low), // information: signal
        Column(I32, At(20), Low), // information: errno
        Column(I32, At(24), Low), // information: code
        Column(U32, At(28), Low), // information: pid
        Column(U32, At(32), Low), // information: uid
        Column(U32, At(36), Low), // information: value
        Column(U32, At(144), Low), // flags
        Column(U32, At(148), Low), // link
        Column(U32, At(152), Low), // stack start
        Column(I32, At(156), Low), // stack flags
        Column(U32, At(160), Low), // stack size
        Column(U32, At(164), Low), // gs
        Column(U32, At(168), Low), // fs
        Column(U32, At(172), Low), // es
        Column(U32, At(176), Low), // ds
        Column(U32, At(180), Low), // edi
        Column(U32, At(184), Low), // esi
        Column(U32, At(188), Low), // ebp
        Column(U32, At(192), Low), // esp
        Column(U32, At(196), Low), // ebx
        Column(U32, At(200), Low), // edx
        Column(U32, At(204), Low), // ecx
        Column(U32, At(208), Low), // eax
        Column(U32, At(212), Low), // trapno
        Column(U32, At(216), Low), // err
        Column(U32, At(220), Low), // eip
        Column(U32, At(224), Low), // cs
        Column(U32, At(228), Low), // eflags
        Column(U32, At(232), Low), // esp again
        Column(U32, At(236), Low), // ss
        Column(U32, At(240), Low), // fpstate
        Column(U32, At(244), Low), // low mask
        Column(U32, At(248), Low), // cr2
        Column(U64, At(252), Low), // mask
        Column(U64, At(260), Low), // code
    ],
};

impl Tabled for Ia32Frame {
    ghost shape = { frame };

    fn table() -> Table {
        IA32_FRAME
    }

    fn put_row(&self, row: &mut [u64]) {
        let mut words = [0; 39];
        words[0] = u64::from(self.return_address);
        words[1] = u64::from(self.info.signal);
        words[2] = u64::from(self.info_at);
        words[3] = u64::from(self.context_at);
        words[4..10].copy_from_slice(&info_words(&self.info));
        words[12..15].copy_from_slice(&stack_words(&self.stack));
        words[15..37].copy_from_slice(&context_words(&self.registers, self.mask));
        words[37] = self.mask;
        words[38] = CODE;
        row.copy_from_slice(&words);
    }

    fn of_row(row: &[u64]) -> Self {
        Ia32Frame {
            return_address: half_at(row, 0),
            info_at: half_at(row, 2),
            context_at: half_at(row, 3),
            info: info_in(row, 4),
            stack: stack_in(row, 12),
            registers: registers_in(row, 15),
            mask: row[37],
        }
    }

    ghost sound = { refl };
}
