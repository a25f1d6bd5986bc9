//! The fields of a line that tells an item of the state.

ghost use Rattle.std.specs.Prelude.{◌≡◌, ◌++◌, OnOk};
ghost use Rattle.report_text.specs.Fields.{bytes_line, bytes_text, numbers_line, numbers_text};

use crate::text::{put, put_bytes, put_hex};
use kernel_values::OutOfMemory;
use std::alloc::Global;

/// Appends numbers, each behind a space.
#[tactic(auto, unfolding(crate::specs::Fields::numbers_text))]
pub fn put_numbers(alloc: Global, out: &mut Vec<u8>, numbers: &[u64]) -> Result<(), OutOfMemory>
    ensures { OnOk result (out.new.items ≡ out.old.items ++ numbers_text numbers.now) }
{
    for number in numbers {
        put(out, b" ")?;
        put_hex(alloc, out, *number)?;
    }
    Ok(())
}

/// Appends bytes that may be none, `-` then, behind a space.
#[tactic(auto, unfolding(crate::specs::Fields::bytes_text))]
pub fn put_bytes_field(alloc: Global, out: &mut Vec<u8>, bytes: &[u8]) -> Result<(), OutOfMemory>
    ensures { OnOk result (out.new.items ≡ out.old.items ++ bytes_text bytes.now) }
{
    if bytes.is_empty() {
        return put(out, b" -");
    }
    put(out, b" ")?;
    put_bytes(alloc, out, bytes)
}

/// Appends a line: a word and numbers behind it.
pub fn put_line(
    alloc: Global,
    out: &mut Vec<u8>,
    word: &[u8],
    numbers: &[u64],
) -> Result<(), OutOfMemory>
    ensures { OnOk result (out.new.items ≡ out.old.items ++ numbers_line word.now numbers.now) }
{
    put(out, word)?;
    put_numbers(alloc, out, numbers)?;
    put(out, b"\n")
}

/// Appends a line: a word, numbers and bytes.
pub fn put_bytes_line(
    alloc: Global,
    out: &mut Vec<u8>,
    word: &[u8],
    numbers: &[u64],
    bytes: &[u8],
) -> Result<(), OutOfMemory>
    ensures { OnOk result (out.new.items ≡ out.old.items ++ bytes_line word.now numbers.now bytes.now) }
{
    put(out, word)?;
    put_numbers(alloc, out, numbers)?;
    put(out, b" ")?;
    put_bytes(alloc, out, bytes)?;
    put(out, b"\n")
}
