//! `stack_t` of `include/uapi/asm-generic/signal.h` with 32-bit words.

ghost use Rattle.std.specs.Prelude.{◌≡◌, ◌≤◌, ◌+◌, length, refl};
ghost use Rattle.signal_layouts.specs.Stacks.{stack_32, stack_in, stack_row};

use crate::words::{half_at, signed_at};
use layout_laws::Field::{I32, U32};
use layout_laws::Misfit::Low;
use layout_laws::Offset::At;
use layout_laws::{Column, Table, Tabled};

/// The alternate stack of handlers, 12 bytes: where it begins, what is told or asked of it, and its bytes.
#[derive(Clone, Copy, Debug, PartialEq, Eq)]
pub struct Stack32 {
    pub base: u32,
    pub flags: i32,
    pub size: u32,
}

/// The table of `Stack32`.
pub const STACK_32: Table = Table {
    size: At(12),
    columns: &[
        Column(U32, At(0), Low), // sp
        Column(I32, At(4), Low), // flags
        Column(U32, At(8), Low), // size
    ],
};

/// The words of a stack.
pub(crate) fn stack_words(stack: &Stack32) -> [u64; 3]
    ensures { result ≡ stack_row stack.now }
{
    [
        u64::from(stack.base),
        i64::from(stack.flags).cast_unsigned(),
        u64::from(stack.size),
    ]
}

/// The stack that the words of a row from a place on mean.
pub(crate) fn stack_in(row: &[u64], place: usize) -> Stack32
    requires { place + 3 ≤ length row.now }
    ensures { result ≡ stack_in row.now place }
{
    Stack32 {
        base: half_at(row, place),
        flags: signed_at(row, place + 1),
        size: half_at(row, place + 2),
    }
}

impl Tabled for Stack32 {
    ghost shape = { stack_32 };

    fn table() -> Table {
        STACK_32
    }

    fn put_row(&self, row: &mut [u64]) {
        row.copy_from_slice(&stack_words(self));
    }

    fn of_row(row: &[u64]) -> Self {
        stack_in(row, 0)
    }

    ghost sound = { refl };
}
