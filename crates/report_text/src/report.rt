//! The lines of a report beside those of the state.

ghost use Rattle.std.specs.Prelude.{◌≡◌, ◌∷◌, [], ◌++◌, OnOk};
ghost use Rattle.report_text.specs.Text.{hex_text};
ghost use Rattle.report_text.specs.Report.{bad_text, call_text, change_text, end_line, end_text, gone_text, ok_text, state_head};

use crate::text::{put, put_bytes, put_decimal, put_hex, put_word, put_words};
use kernel_values::{End, OutOfMemory};
use std::alloc::Global;

/// A word, a number and the end of the line.
fn put_line(alloc: Global, out: &mut Vec<u8>, word: &[u8], n: u64) -> Result<(), OutOfMemory>
    ensures { OnOk result (out.new.items ≡ out.old.items ++ word.now ++ hex_text n ++ 10 ∷ []) }
{
    put(out, word)?;
    put_hex(alloc, out, n)?;
    put(out, b"\n")
}

/// Appends the line of call number `k`: its name, and all registers afterwards.
pub fn put_call(
    alloc: Global,
    out: &mut Vec<u8>,
    k: u64,
    name: &[u8],
    registers: &[u32],
) -> Result<(), OutOfMemory>
    ensures { OnOk result (out.new.items ≡ out.old.items ++ call_text k name.now registers.now) }
{
    put(out, b"call ")?;
    put_decimal(alloc, out, k)?;
    put(out, b" ")?;
    put(out, name)?;
    put_words(alloc, out, registers)?;
    put(out, b"\n")
}

/// Appends the line of call number `k` where the process has ended before it.
pub fn put_gone(alloc: Global, out: &mut Vec<u8>, k: u64) -> Result<(), OutOfMemory>
    ensures { OnOk result (out.new.items ≡ out.old.items ++ gone_text k) }
{
    put(out, b"call ")?;
    put_decimal(alloc, out, k)?;
    put(out, b" gone")?;
    put(out, b"\n")
}

/// Appends the line of a run of changed bytes, which begins at an address.
pub fn put_change(
    alloc: Global,
    out: &mut Vec<u8>,
    at: u32,
    bytes: &[u8],
) -> Result<(), OutOfMemory>
    ensures { OnOk result (out.new.items ≡ out.old.items ++ change_text at bytes.now) }
{
    put(out, b"mem ")?;
    put_word(alloc, out, at)?;
    put(out, b" ")?;
    put_bytes(alloc, out, bytes)?;
    put(out, b"\n")
}

/// Appends how the process ended in a call: nothing where it goes on.
pub fn put_end(alloc: Global, out: &mut Vec<u8>, ended: Option<End>) -> Result<(), OutOfMemory>
    ensures { OnOk result (out.new.items ≡ out.old.items ++ end_text ended) }
{
    match ended {
        None => Ok(()),
        Some(End::Exit(code)) => put_line(alloc, out, b"exit ", u64::from(code)),
        Some(End::Signal(signal)) => put_line(alloc, out, b"killed ", u64::from(signal)),
    }
}

/// Appends the line above those of the state.
#[tactic(auto, unfolding(crate::specs::Report::state_head))]
pub fn put_state_head(out: &mut Vec<u8>) -> Result<(), OutOfMemory>
    ensures { OnOk result (out.new.items ≡ out.old.items ++ state_head) }
{
    put(out, b"state\n")
}

/// Appends the last line of the report of a whole script.
#[tactic(auto, unfolding(crate::specs::Report::end_line))]
pub fn put_last(out: &mut Vec<u8>) -> Result<(), OutOfMemory>
    ensures { OnOk result (out.new.items ≡ out.old.items ++ end_line) }
{
    put(out, b"end\n")
}

/// Appends the line of a script that is good: how many records it has, with its header.
pub fn put_ok(alloc: Global, out: &mut Vec<u8>, records: u64) -> Result<(), OutOfMemory>
    ensures { OnOk result (out.new.items ≡ out.old.items ++ ok_text records) }
{
    put_line(alloc, out, b"ok ", records)
}

/// Appends the line that tells a bad line: its number and its cause.
pub fn put_bad(alloc: Global, out: &mut Vec<u8>, line: u64, cause: &[u8]) -> Result<(), OutOfMemory>
    ensures { OnOk result (out.new.items ≡ out.old.items ++ bad_text line cause.now) }
{
    put(out, b"bad ")?;
    put_decimal(alloc, out, line)?;
    put(out, b" ")?;
    put(out, cause)?;
    put(out, b"\n")
}
