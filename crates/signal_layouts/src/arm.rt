//! The frames of handlers on Arm: `struct sigframe` and `struct rt_sigframe` of `arch/arm/kernel/signal.h`, with
//! `struct sigcontext` of `arch/arm/include/uapi/asm/sigcontext.h` and `struct ucontext` of `arch/arm/include/asm/ucontext.h`.

ghost use Rattle.std.specs.Prelude.{◌≡◌, ◌≤◌, ◌+◌, length, refl};
ghost use Rattle.signal_layouts.specs.Arm.{context_row, frame, plain_frame, registers_in};

use crate::infos::{info_in, info_words};
use crate::stacks::{Stack32, stack_in, stack_words};
use crate::words::half_at;
use kernel_values::SigInfo;
use layout_laws::Field::{I32, U32, U64};
use layout_laws::Misfit::Low;
use layout_laws::Offset::At;
use layout_laws::{Column, Table, Tabled};

/// The flags of the context in a frame without information, by which unwinders know it.
const PLAIN_FLAGS: u64 = 0x5ac3_c35a;

/// The frame of a handler without information, 752 bytes: a context, whose stack isn't told.
#[derive(Clone, Copy, Debug, PartialEq, Eq)]
pub struct ArmPlainFrame {
    /// The registers of what was interrupted: r0 to r15, and cpsr.
    pub registers: [u32; 17],
    /// The bits of the signals that were blocked. The context's own mask, their low 32 bits, is free when read.
    pub mask: u64,
}

/// The table of `ArmPlainFrame`.
pub const ARM_PLAIN_FRAME: Table = Table {
    size: At(752),
    columns: &[
        Column(U32, At(0), Low), // flags
        Column(U32, At(4), Low), // link
        Column(U32, At(8), Low), // stack start
        Column(I32, At(12), Low), // stack flags
        Column(U32, At(16), Low), // stack size
        Column(U32, At(20), Low), // trap
        Column(U32, At(24), Low), // error
        Column(U32, At(28), Low), // low mask
        Column(U32, At(32), Low), // r0
        Column(U32, At(36), Low), // r1
        Column(U32, At(40), Low), // r2
        Column(U32, At(44), Low), // r3
        Column(U32, At(48), Low), // r4
        Column(U32, At(52), Low), // r5
        Column(U32, At(56), Low), // r6
        Column(U32, At(60), Low), // r7
        Column(U32, At(64), Low), // r8
        Column(U32, At(68), Low), // r9
        Column(U32, At(72), Low), // r10
        Column(U32, At(76), Low), // fp
        Column(U32, At(80), Low), // ip
        Column(U32, At(84), Low), // sp
        Column(U32, At(88), Low), // lr
        Column(U32, At(92), Low), // pc
        Column(U32, At(96), Low), // cpsr
        Column(U32, At(100), Low), // fault
        Column(U64, At(104), Low), // mask
    ],
};

/// The words of `struct sigcontext`: what follows an exception is 0.
fn context_words(registers: &[u32; 17], mask: u64) -> [u64; 21]
    ensures { result ≡ context_row registers.now mask }
{
    let r = registers;
    [
        0,
        0,
        mask,
        u64::from(r[0]),
        u64::from(r[1]),
        u64::from(r[2]),
        u64::from(r[3]),
        u64::from(r[4]),
        u64::from(r[5]),
        u64::from(r[6]),
        u64::from(r[7]),
        u64::from(r[8]),
        u64::from(r[9]),
        u64::from(r[10]),
        u64::from(r[11]),
        u64::from(r[12]),
        u64::from(r[13]),
        u64::from(r[14]),
        u64::from(r[15]),
        u64::from(r[16]),
        0,
    ]
}

/// The registers in the words of `struct sigcontext` from a place of a row on.
fn registers_in(row: &[u64], place: usize) -> [u32; 17]
    requires { place + 21 ≤ length row.now }
    ensures { result ≡ registers_in row.now place }
{
    [
        half_at(row, place + 3),
        half_at(row, place + 4),
        half_at(row, place + 5),
        half_at(row, place + 6),
        half_at(row, place + 7),
        half_at(row, place + 8),
        half_at(row, place + 9),
        half_at(row, place + 10),
        half_at(row, place + 11),
        half_at(row, place + 12),
        half_at(row, place + 13),
        half_at(row, place + 14),
        half_at(row, place + 15),
        half_at(row, place + 16),
        half_at(row, place + 17),
        half_at(row, place + 18),
        half_at(row, place + 19),
    ]
}

impl Tabled for ArmPlainFrame {
    ghost shape = { plain_frame };

    fn table() -> Table {
        ARM_PLAIN_FRAME
    }

    fn put_row(&self, row: &mut [u64]) {
        let mut words = [0; 27];
        words[0] = PLAIN_FLAGS;
        words[5..26].copy_from_slice(&context_words(&self.registers, self.mask));
        words[26] = self.mask;
        row.copy_from_slice(&words);
    }

    fn of_row(row: &[u64]) -> Self {
        ArmPlainFrame {
            registers: registers_in(row, 5),
            mask: row[26],
        }
    }

    ghost sound = { refl };
}

/// The frame of a handler with information, 880 bytes: the information, and a context 128 bytes behind it.
#[derive(Clone, Copy, Debug, PartialEq, Eq)]
pub struct ArmFrame {
    pub info: SigInfo,
    /// The alternate stack as it is told at the stack pointer of what was interrupted.
    pub stack: Stack32,
    /// The registers of what was interrupted: r0 to r15, and cpsr.
    pub registers: [u32; 17],
    /// The bits of the signals that were blocked. The context's own mask, their low 32 bits, is free when read.
    pub mask: u64,
}

/// The table of `ArmFrame`.
pub const ARM_FRAME: Table = Table {
    size: At(880),
    columns: &[
        Column(I32, At(0), Low), // information: signal
        Column(I32, At(4), Low), // information: errno
        Column(I32, At(8), Low), // information: code
        Column(U32, At(12), Low), // information: pid
        Column(U32, At(16), Low), // information: uid
        Column(U32, At(20), Low), // information: value
        Column(U32, At(128), Low), // flags
        Column(U32, At(132), Low), // link
        Column(U32, At(136), Low), // stack start
        Column(I32, At(140), Low), // stack flags
        Column(U32, At(144), Low), // stack size
        Column(U32, At(148), Low), // trap
        Column(U32, At(152), Low), // error
        Column(U32, At(156), Low), // low mask
        Column(U32, At(160), Low), // r0
        Column(U32, At(164), Low), // r1
        Column(U32, At(168), Low), // r2
        Column(U32, At(172), Low), // r3
        Column(U32, At(176), Low), // r4
        Column(U32, At(180), Low), // r5
        Column(U32, At(184), Low), // r6
        Column(U32, At(188), Low), // r7
        Column(U32, At(192), Low), // r8
        Column(U32, At(196), Low), // r9
        Column(U32, At(200), Low), // r10
        Column(U32, At(204), Low), // fp
        Column(U32, At(208), Low), // ip
        Column(U32, At(212), Low), // sp
        Column(U32, At(216), Low), // lr
        Column(U32, At(220), Low), // pc
        Column(U32, At(224), Low), // cpsr
        Column(U32, At(228), Low), // fault
        Column(U64, At(232), Low), // mask
    ],
};

impl Tabled for ArmFrame {
    ghost shape = { frame };

    fn table() -> Table {
        ARM_FRAME
    }

    fn put_row(&self, row: &mut [u64]) {
        let mut words = [0; 33];
        words[..6].copy_from_slice(&info_words(&self.info));
        words[8..11].copy_from_slice(&stack_words(&self.stack));
        words[11..32].copy_from_slice(&context_words(&self.registers, self.mask));
        words[32] = self.mask;
        row.copy_from_slice(&words);
    }

    fn of_row(row: &[u64]) -> Self {
        ArmFrame {
            info: info_in(row, 0),
            stack: stack_in(row, 8),
            registers: registers_in(row, 11),
            mask: row[32],
        }
    }

    ghost sound = { refl };
}
