//! Shapes in user memory, with the error numbers that a call answers.

ghost use Rattle.kernel_values.specs.Outcome.{Tells};
ghost use Rattle.served_calls.specs.Calls.{Delivers, optional};
ghost use Rattle.served_calls.specs.Shapes.{fetched, optionally_fetched, stored};

use kernel_values::Errno;
use layout_laws::{Abi, Layout, StoreFault, fetch, store};
use user_memory::UserMemory;

/// The shape at an address. EFAULT where it can't be read.
#[tactic(auto, unfolding(crate::specs::Shapes::fetched))]
pub fn fetch_shape<A: Abi, T: Layout<A>>(memory: &UserMemory, at: u32) -> Result<T, Errno>
    ensures { Tells result (fetched memory.now at T.SIZE T.value) }
{
    match fetch::<A, T>(memory, at) {
        Ok(value) => Ok(value),
        Err(_) => Err(Errno::BadAddress),
    }
}

/// The shape at a pointer. None for the pointer 0.
pub fn fetch_optional<A: Abi, T: Layout<A>>(
    memory: &UserMemory,
    at: u32,
) -> Result<Option<T>, Errno>
    ensures { Tells result (optionally_fetched memory.now at T.SIZE T.value) }
{
    if at == 0 {
        return Ok(None);
    }
    Ok(Some(fetch_shape::<A, T>(memory, at)?))
}

/// Stores a shape, whole or not at all. EOVERFLOW for a value without form, then EFAULT where
/// a byte can't be written.
#[tactic(auto, unfolding(crate::specs::Shapes::stored))]
pub fn store_shape<A: Abi, T: Layout<A>>(
    memory: &mut UserMemory,
    at: u32,
    value: &T,
) -> Result<(), Errno>
    ensures { Delivers result memory.new (stored memory.old at (T.spelling value.now)) }
{
    match store::<A, T>(memory, at, value) {
        Ok(()) => Ok(()),
        Err(StoreFault::NoForm) => Err(Errno::Overflow),
        Err(StoreFault::Fault) => Err(Errno::BadAddress),
    }
}

/// Stores a shape at a pointer. Nothing is stored at the pointer 0.
pub fn store_optional<A: Abi, T: Layout<A>>(
    memory: &mut UserMemory,
    at: u32,
    value: &T,
) -> Result<(), Errno>
    ensures { Delivers result memory.new (optional at (λ m. stored m at (T.spelling value.now)) memory.old) }
{
    if at == 0 {
        return Ok(());
    }
    store_shape::<A, T>(memory, at, value)
}
