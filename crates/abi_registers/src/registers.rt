//! The registers, by their roles in a call: those of i386's `int 0x80` entry, where the result goes
//! back in eax, and those of Arm EABI's `swi 0` entry, which passes arguments as the Procedure Call
//! Standard for Arm (AAPCS32) does and takes the number in r7.
ghost use Rattle.std.specs.Prelude.{◌≡◌, ◌≤◌, length};
ghost use Rattle.abi_registers.specs.Places.{all_in, number_in, stack_pointer_in, words_in, kind_in, with_result};
ghost use Rattle.abi_registers.specs.Arguments.{args_of};

use crate::arguments::{Args, Form, from_words};
use kernel_values::AbiKind;

/// The registers of a 32-bit process.
#[derive(Clone, Copy, Debug, PartialEq, Eq)]
pub enum Registers {
    /// Those of i386: eax, ebx, ecx, edx, esi, edi, ebp, esp, eip, eflags.
    Ia32([u32; 10]),
    /// Those of Arm: r0 to r15, of which r13 is sp, r14 lr and r15 pc, and then cpsr.
    Arm([u32; 17]),
}

impl Registers {
    /// The kind of process whose registers these are.
    pub fn kind(&self) -> AbiKind
        ensures { result ≡ kind_in self.now }
    {
        match self {
            Registers::Ia32(_) => AbiKind::Ia32,
            Registers::Arm(_) => AbiKind::ArmEabi,
        }
    }

    /// All registers, in the order of the variants' descriptions.
    pub fn all(&self) -> &[u32]
        ensures { result.now ≡ all_in self.now }
    {
        match self {
            Registers::Ia32(r) => r,
            Registers::Arm(r) => r,
        }
    }

    /// The number of the call: eax on i386, r7 on Arm.
    pub fn number(&self) -> u32
        ensures { result ≡ number_in self.now }
    {
        match self {
            Registers::Ia32(r) => r[0],
            Registers::Arm(r) => r[7],
        }
    }

    /// The six argument words in order: ebx, ecx, edx, esi, edi and ebp on i386, r0 to r5 on Arm.
    pub fn words(&self) -> [u32; 6]
        ensures { result ≡ words_in self.now }
    {
        match self {
            Registers::Ia32(r) => [r[1], r[2], r[3], r[4], r[5], r[6]],
            Registers::Arm(r) => [r[0], r[1], r[2], r[3], r[4], r[5]],
        }
    }

    /// The arguments of a call with these forms, of which there are at most six. A form past the sixth
    /// word reads 0.
    pub fn arguments(&self, forms: &[Form]) -> Args
        requires { length forms.now ≤ 6 }
        ensures { result ≡ args_of (kind_in self.now) (words_in self.now) forms.now }
    {
        from_words(self.kind(), &self.words(), forms)
    }

    /// The registers with a result in eax on i386, in r0 on Arm, and all others as they are.
    pub fn with_result(&self, word: u32) -> Registers
        ensures { result ≡ with_result self.now word }
    {
        let mut changed = *self;
        match &mut changed {
            Registers::Ia32(r) => r[0] = word,
            Registers::Arm(r) => r[0] = word,
        }
        changed
    }

    /// The stack pointer: esp on i386, r13 on Arm.
    pub fn stack_pointer(&self) -> u32
        ensures { result ≡ stack_pointer_in self.now }
    {
        match self {
            Registers::Ia32(r) => r[7],
            Registers::Arm(r) => r[13],
        }
    }
}
