//! The parts of a report that are told of registers, of memory and of the world.

ghost use Rattle.std.specs.Prelude.{◌≡◌, ◌++◌, true, OnOk};
ghost use Rattle.user_memory.specs.Memory.{is_readable, bytes_at};
ghost use Rattle.user_memory.specs.Changes.{changes};
ghost use Rattle.abi_registers.specs.Places.{all_in, kind_in, number_in};
ghost use Rattle.call_tables.specs.Rows.{row};
ghost use Rattle.report_text.specs.Report.{call_text, change_text, changes_text, end_line};
ghost use Rattle.replay_command.specs.Machine.{row_name};
ghost use Rattle.replay_command.specs.StateText.{state_text};

use crate::state::put_state;
use abi_registers::Registers;
use call_tables::find_row;
use compat_calls::World;
use kernel_values::{AbiKind, OutOfMemory};
use report_text::{put_call, put_change, put_last};
use std::alloc::Global;
use user_memory::{Change, UserMemory};

/// The name of the call of these registers.
fn name_of(registers: &Registers) -> &'static [u8]
    ensures { result.now ≡ row_name (row (kind_in registers.now) (number_in registers.now)) }
{
    match find_row(registers.kind(), registers.number()) {
        Some(row) => row.name.as_bytes(),
        None => b"unknown",
    }
}

/// The line of a call, from the registers before and after it.
pub fn put_called(
    alloc: Global,
    out: &mut Vec<u8>,
    k: u64,
    before: &Registers,
    after: &Registers,
) -> Result<(), OutOfMemory>
    ensures { OnOk result (out.new.items ≡ out.old.items ++ call_text k (row_name (row (kind_in before.now) (number_in before.now))) (all_in after.now)) }
{
    put_call(alloc, out, k, name_of(before), after.all())
}

/// The line of one run of changed bytes.
fn put_run(
    alloc: Global,
    out: &mut Vec<u8>,
    memory: &UserMemory,
    change: Change,
) -> Result<(), OutOfMemory>
    requires { is_readable memory.now change.at change.length ≡ true }
    ensures { OnOk result (out.new.items ≡ out.old.items ++ change_text change.at (bytes_at memory.now change.at change.length)) }
{
    let mut bytes = vec![in alloc; 0u8; change.length as usize]?;
    let Ok(()) = memory.copy_in(change.at, &mut bytes) else {
        unreachable!();
    };
    put_change(alloc, out, change.at, &bytes)
}

/// A line for each run of changed bytes, ascending.
pub fn put_changes(alloc: Global, out: &mut Vec<u8>, memory: &UserMemory) -> Result<(), OutOfMemory>
    ensures { OnOk result (out.new.items ≡ out.old.items ++ changes_text (changes memory.now 0)) }
{
    let mut from: u64 = 0;
    while let Some(change) = memory.next_change(from) {
        put_run(alloc, out, memory, change)?;
        from = u64::from(change.at) + u64::from(change.length);
    }
    Ok(())
}

/// The state, and the end of the report.
pub fn put_whole(
    alloc: Global,
    out: &mut Vec<u8>,
    abi: AbiKind,
    world: &World,
) -> Result<(), OutOfMemory>
    ensures { OnOk result (out.new.items ≡ out.old.items ++ (state_text abi world.now ++ end_line)) }
{
    put_state(alloc, out, abi, world)?;
    put_last(out)
}
