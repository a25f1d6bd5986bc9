//! Shapes in the memory of a process.

ghost use Rattle.std.specs.Prelude.{◌≡◌, is_ok, is_err, IfOk};
ghost use Rattle.user_memory.specs.Memory.{is_readable, bytes_at};
ghost use Rattle.layout_laws.specs.Stored.{memory_after, store_answer};

use crate::abi::Abi;
use crate::layout::Layout;
use crate::rows::NoForm;
use user_memory::{Fault, UserMemory};

/// Why a value wasn't stored.
#[derive(Clone, Copy, Debug, PartialEq, Eq)]
pub enum StoreFault {
    /// The value has no form in the layout.
    NoForm,
    /// A byte of the range isn't writable, or the range passes 2^32.
    Fault,
}

/// Bytes of the greatest shape.
const MOST: usize = 1024;

/// Reads a shape from address `at`.
pub fn fetch<A: Abi, T: Layout<A>>(memory: &UserMemory, at: u32) -> Result<T, Fault>
    ensures answer { is_ok result ≡ is_readable memory.now at T.SIZE }
    ensures value { IfOk result (λ v. v ≡ T.value (bytes_at memory.now at T.SIZE)) }
{
    let mut buffer = [0; MOST];
    let bytes = &mut buffer[..T::size()];
    memory.copy_in(at, bytes)?;
    Ok(T::get(bytes))
}

/// Writes a shape to address `at`, all of its bytes or none.
pub fn store<A: Abi, T: Layout<A>>(
    memory: &mut UserMemory,
    at: u32,
    value: &T,
) -> Result<(), StoreFault>
    ensures answer { result ≡ store_answer memory.old at (T.spelling value.now) }
    ensures memory { memory.new ≡ memory_after memory.old at (T.spelling value.now) }
{
    let mut buffer = [0; MOST];
    let bytes = &mut buffer[..T::size()];
    if value.put(bytes).is_err() {
        return Err(StoreFault::NoForm);
    }
    match memory.copy_out(at, bytes) {
        Ok(()) => Ok(()),
        Err(_) => Err(StoreFault::Fault),
    }
}
