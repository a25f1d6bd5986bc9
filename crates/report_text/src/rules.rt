//! The lines of rule tables.

ghost use Rattle.std.specs.Prelude.{◌≡◌, ◌++◌, OnOk};
ghost use Rattle.report_text.specs.Rules.{hook_text, hooks_text, rule_text, table_text, table_word};

use crate::fields::{put_bytes_line, put_numbers};
use crate::text::put;
use kernel_values::{OutOfMemory, RuleItem, TableItem, TableName};
use std::alloc::Global;

#[tactic(auto, unfolding(crate::specs::Rules::table_word))]
fn table_word(name: TableName) -> &'static [u8]
    ensures { result.now ≡ table_word name }
{
    match name {
        TableName::Filter => b"table filter",
        TableName::Mangle => b"table mangle",
        TableName::Raw => b"table raw",
    }
}

/// The place of a hook, `-` for one that the table has not.
#[tactic(auto, unfolding(crate::specs::Rules::hook_text))]
fn put_hook(alloc: Global, out: &mut Vec<u8>, hook: Option<u32>) -> Result<(), OutOfMemory>
    ensures { OnOk result (out.new.items ≡ out.old.items ++ hook_text hook) }
{
    match hook {
        None => put(out, b" -"),
        Some(place) => put_numbers(alloc, out, &[u64::from(place)]),
    }
}

/// The places of hooks, in their order.
#[tactic(auto, unfolding(crate::specs::Rules::hooks_text))]
fn put_hooks(alloc: Global, out: &mut Vec<u8>, hooks: &[Option<u32>]) -> Result<(), OutOfMemory>
    ensures { OnOk result (out.new.items ≡ out.old.items ++ hooks_text hooks.now) }
{
    for hook in hooks {
        put_hook(alloc, out, *hook)?;
    }
    Ok(())
}

/// Appends `table NAME RULES SIZE`, five hook entries and five underflows.
#[tactic(auto, unfolding(crate::specs::Rules::table_text))]
pub fn put_table(alloc: Global, out: &mut Vec<u8>, table: &TableItem) -> Result<(), OutOfMemory>
    ensures { OnOk result (out.new.items ≡ out.old.items ++ table_text table.now) }
{
    let numbers = [u64::from(table.rules), u64::from(table.size)];
    put(out, table_word(table.name))?;
    put_numbers(alloc, out, &numbers)?;
    put_hooks(alloc, out, &table.hook_entry)?;
    put_hooks(alloc, out, &table.underflow)?;
    put(out, b"\n")
}

/// Appends `rule PLACE BYTES`.
#[tactic(auto, unfolding(crate::specs::Rules::rule_text))]
pub fn put_rule(alloc: Global, out: &mut Vec<u8>, item: &RuleItem) -> Result<(), OutOfMemory>
    ensures { OnOk result (out.new.items ≡ out.old.items ++ rule_text item.now) }
{
    let numbers = [u64::from(item.place)];
    put_bytes_line(alloc, out, b"rule", &numbers, item.bytes.as_slice())
}
