//! The sets of select: fetched, told and stored.

ghost use Rattle.std.specs.Prelude.{◌≡◌, ◌≤◌, IfOk, length};
ghost use Rattle.std.specs.Int.RustNames.{count_ones};
ghost use Rattle.std.specs.List.{sum_by};
ghost use Rattle.kernel_values.specs.Outcome.{Tells, TellsAs};
ghost use Rattle.served_calls.specs.Calls.{Delivers};
ghost use Rattle.readiness_calls.specs.SelectSets.{bit_told, byte_told, bytes_told, holds, set_at, set_count, set_size, set_told};
ghost use Rattle.readiness_calls.specs.Selects.{stores_set};
ghost use Rattle.readiness_calls.specs.SetSeen.{set_seen};

use kernel_values::Errno;
use native_kernel::{Kernel, Ready};
use served_calls::store_bytes;
use user_memory::UserMemory;

/// Bytes of the longest set: FD_SETSIZE of `include/uapi/linux/posix_types.h`, 1,024, bits.
pub(crate) const MOST_BYTES: usize = 128;

/// What a set asks of its descriptors.
#[derive(Clone, Copy, Debug, PartialEq, Eq)]
pub enum Condition {
    /// Input, a hang-up or an error.
    Input,
    /// Output or an error.
    Output,
    /// Nothing that there is.
    Exception,
}

/// A set: the bit of descriptor n is bit n % 8 of byte n / 8.
#[derive(Clone, Copy, Debug)]
pub struct Set {
    /// Where it stands in user memory, and 0 for no set.
    pub(crate) at: u32,
    /// How many bytes it has, at most 128. Those behind them aren't looked at.
    pub(crate) size: usize,
    pub(crate) bytes: [u8; MOST_BYTES],
}

fn holds(condition: Condition, ready: Ready) -> bool
    ensures { result ≡ holds condition ready }
{
    match condition {
        Condition::Input => ready.input || ready.hang_up || ready.error,
        Condition::Output => ready.output || ready.error,
        Condition::Exception => false,
    }
}

/// What is told of the bit of a descriptor, the bit `mask` of a byte. EBADF.
#[tactic(auto, unfolding(crate::specs::SelectSets::bit_told))]
fn bit_told(
    kernel: &Kernel,
    condition: Condition,
    count: u32,
    number: u32,
    byte: u8,
    mask: u8,
) -> Result<u8, Errno>
    ensures { Tells result (bit_told kernel.now condition count number byte mask) }
{
    if number >= count || byte & mask != mask {
        return Ok(0);
    }
    let ready = kernel.ready(i64::from(number))?;
    Ok(if holds(condition, ready) { mask } else { 0 })
}

/// What is told of a byte, whose first bit is that of a descriptor. EBADF.
#[tactic(auto, unfolding(crate::specs::SelectSets::byte_told))]
fn byte_told(
    kernel: &Kernel,
    condition: Condition,
    count: u32,
    first: u32,
    byte: u8,
) -> Result<u8, Errno>
    requires { first ≤ 1016 }
    ensures { Tells result (byte_told kernel.now condition count first byte) }
{
    let b0 = bit_told(kernel, condition, count, first, byte, 1)?;
    let b1 = bit_told(kernel, condition, count, first + 1, byte, 2)?;
    let b2 = bit_told(kernel, condition, count, first + 2, byte, 4)?;
    let b3 = bit_told(kernel, condition, count, first + 3, byte, 8)?;
    let b4 = bit_told(kernel, condition, count, first + 4, byte, 16)?;
    let b5 = bit_told(kernel, condition, count, first + 5, byte, 32)?;
    let b6 = bit_told(kernel, condition, count, first + 6, byte, 64)?;
    let b7 = bit_told(kernel, condition, count, first + 7, byte, 128)?;
    Ok(b0 | b1 | (b2 | b3) | (b4 | b5 | (b6 | b7)))
}

/// Puts what is told of the bytes of a set in their place. EBADF.
fn tell_bytes(
    kernel: &Kernel,
    condition: Condition,
    count: u32,
    bytes: &mut [u8],
) -> Result<(), Errno>
    requires { length bytes.old ≤ 128 }
    ensures { TellsAs (λ _. bytes.new) result (bytes_told kernel.now condition count 0 bytes.old) }
{
    for place in 0..bytes.len() {
        bytes[place] = byte_told(kernel, condition, count, 8 * place as u32, bytes[place])?;
    }
    Ok(())
}

/// How many bits of bytes are set.
fn ones(bytes: &[u8]) -> u32
    requires { length bytes.now ≤ 128 }
    ensures count { result ≡ sum_by count_ones bytes.now }
    ensures most { result ≤ 1024 }
{
    let mut count = 0;
    for byte in bytes {
        count += byte.count_ones();
    }
    count
}

/// How many bytes a set of so many descriptors has.
#[tactic(auto, using(crate::proofs::SetBytes::same_size))]
fn set_size(count: u32) -> usize
    requires { count ≤ 1024 }
    ensures size { result ≡ set_size count }
    ensures most { result ≤ 128 }
{
    4 * count.div_ceil(32) as usize
}

impl Set {
    /// The set of so many descriptors at a pointer, none at the pointer 0. EFAULT.
    #[tactic(auto, unfolding(served_calls::specs::Shapes::fetched))]
    pub(crate) fn fetch(memory: &UserMemory, at: u32, count: u32) -> Result<Set, Errno>
        requires { count ≤ 1024 }
        ensures told { TellsAs set_seen result (set_at memory.now at count) }
        ensures size { IfOk result (λ s. s.size ≤ 128) }
        ensures place { IfOk result (λ s. s.at ≡ at) }
    {
        let size = set_size(count);
        let mut bytes = [0; MOST_BYTES];
        if at == 0 {
            return Ok(Set { at, size, bytes });
        }
        if memory.copy_in(at, &mut bytes[..size]).is_err() {
            return Err(Errno::BadAddress);
        }
        Ok(Set { at, size, bytes })
    }

    /// Puts what is told of the set in its place. EBADF.
    #[tactic(auto, unfolding(crate::specs::SelectSets::set_told))]
    pub(crate) fn tell(
        &mut self,
        kernel: &Kernel,
        condition: Condition,
        count: u32,
    ) -> Result<(), Errno>
        requires { self.old.size ≤ 128 }
        ensures told { TellsAs (λ _. set_seen self.new) result (set_told kernel.now condition count (set_seen self.old)) }
        ensures size { self.new.size ≡ self.old.size }
        ensures place { self.new.at ≡ self.old.at }
    {
        if self.at == 0 {
            return Ok(());
        }
        tell_bytes(kernel, condition, count, &mut self.bytes[..self.size])
    }

    /// Stores a set that is there. EFAULT.
    #[tactic(auto, unfolding(crate::specs::Selects::stores_set))]
    pub(crate) fn store(&self, memory: &mut UserMemory) -> Result<(), Errno>
        requires { self.now.size ≤ 128 }
        ensures { Delivers result memory.new (stores_set self.now.at (set_seen self.now) memory.old) }
    {
        if self.at == 0 {
            return Ok(());
        }
        store_bytes(memory, self.at, &self.bytes[..self.size])
    }

    /// How many of its bits are set.
    pub(crate) fn count(&self) -> u32
        requires { self.now.size ≤ 128 }
        ensures count { result ≡ set_count (set_seen self.now) }
        ensures most { result ≤ 1024 }
    {
        if self.at == 0 {
            return 0;
        }
        ones(&self.bytes[..self.size])
    }
}
