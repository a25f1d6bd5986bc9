//! The row of a number.
ghost use Rattle.std.specs.Prelude.{◌≡◌, ◌≤◌, drop, map, option_map, IfSome, IsTrue};
ghost use Rattle.std.specs.List.{list_all};
ghost use Rattle.call_tables.specs.Rows.{are_words, fits, line_seen, lines_differ, lines_fit, lines_seen, number_in, row, row_in, row_of_line, row_seen};

use crate::operation::Operation;
use crate::table::{Entry, Numbers, file_tables, other_tables};
use abi_registers::Form;
use kernel_values::AbiKind;

/// How a call is read: which call it is, its name, and the forms of its arguments in order.
#[derive(Clone, Copy, Debug, PartialEq, Eq)]
pub struct Row {
    /// The call.
    pub operation: Operation,
    /// Its name, as the call tables of Linux spell it.
    pub name: &'static str,
    /// The forms of its arguments; past `count` all are `Word`.
    pub forms: [Form; 6],
    /// How many arguments it takes, at most six.
    pub count: usize,
}

fn number_in(abi: AbiKind, numbers: Numbers) -> Option<u32>
    ensures { result ≡ number_in abi numbers }
{
    match (numbers, abi) {
        (Numbers::Both(both), _) => Some(both),
        (Numbers::By(ia32, _) | Numbers::Ia32Alone(ia32), AbiKind::Ia32) => Some(ia32),
        (Numbers::By(_, arm) | Numbers::ArmAlone(arm), AbiKind::ArmEabi) => Some(arm),
        _ => None,
    }
}

fn row_of(entry: &Entry) -> Row
    requires { IsTrue (fits entry.now) }
    ensures row { row_seen result ≡ row_of_line (line_seen entry.now) }
    ensures fits { result.count ≤ 6 }
    ensures unused { IsTrue (are_words (drop result.count result.forms)) }
{
    Row {
        operation: entry.0,
        name: entry.1,
        forms: entry.4,
        count: entry.3,
    }
}

/// The row of the first line of a table with this number.
fn row_in(abi: AbiKind, number: u32, table: &[Entry]) -> Option<Row>
    requires { IsTrue (list_all fits table.now) }
    ensures row { option_map row_seen result ≡ row_in abi number (map line_seen table.now) }
    ensures fits { IfSome result (λ r. r.count ≤ 6) }
    ensures unused { IfSome result (λ r. IsTrue (are_words (drop r.count r.forms))) }
{
    for entry in table {
        if number_in(abi, entry.2) == Some(number) {
            return Some(row_of(entry));
        }
    }
    None
}

/// The row of the first table that has one for this number.
#[tactic(auto, using(crate::proofs::Rows::rows))]
fn row_among(abi: AbiKind, number: u32, tables: &[&[Entry]]) -> Option<Row>
    requires { IsTrue (list_all (λ t. list_all fits t.now) tables.now) }
    ensures row { option_map row_seen result ≡ row_in abi number (lines_seen tables.now) }
    ensures fits { IfSome result (λ r. r.count ≤ 6) }
    ensures unused { IfSome result (λ r. IsTrue (are_words (drop r.count r.forms))) }
{
    for table in tables {
        if let Some(row) = row_in(abi, number, table) {
            return Some(row);
        }
    }
    None
}

/// The row of a call's number, by `arch/x86/entry/syscalls/syscall_32.tbl` or
/// `arch/arm/tools/syscall.tbl`. None exactly where no line has this number in this ABI; arm's private
/// calls, from `0xf0000` on, are among those.
#[tactic(auto, using(crate::proofs::Rows::rows), unfolding(crate::specs::Rows::row))]
pub fn find_row(abi: AbiKind, number: u32) -> Option<Row>
    ensures row { option_map row_seen result ≡ row abi number }
    ensures fits { IfSome result (λ r. r.count ≤ 6) }
    ensures unused { IfSome result (λ r. IsTrue (are_words (drop r.count r.forms))) }
{
    row_among(abi, number, file_tables()).or_else(|| row_among(abi, number, other_tables()))
}

/// The law of the lines: none has more than six arguments, and no two have the same number in one
/// ABI.
#[tactic(auto, unfolding(crate::specs::Calls::file_calls, crate::specs::Calls::other_calls, crate::specs::Rows::lines_fit, crate::specs::Rows::lines_differ))]
fn law_of_lines()
    ensures fit { IsTrue lines_fit }
    ensures on_ia32 { IsTrue (lines_differ AbiKind.Ia32) }
    ensures on_arm { IsTrue (lines_differ AbiKind.ArmEabi) }
{}
