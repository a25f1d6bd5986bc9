//! Writes and reads the bytes of any table.

ghost use Rattle.std.specs.Prelude.{◌≡◌, ◌<◌, ◌≤◌, ◌+◌, ◌^◌, length, is_ok, is_some, unwrap_or, OnOk, IsTrue, replicate, take, drop, ◌++◌};
ghost use Rattle.byteorder.specs.Endian.{little_bytes, little_number};
ghost use Rattle.layout_laws.specs.Columns.{width, place, cut, extended, told, is_above, word_form};
ghost use Rattle.layout_laws.specs.Rows.{is_ordered, is_within, is_table, row_form, row_spelling, spelled, told_row, word_in};

use crate::columns::{Column, Field, Misfit, Offset};
use byteorder::{ByteOrder, LittleEndian};

/// The value has no form in this layout.
#[derive(Clone, Copy, Debug, PartialEq, Eq)]
pub struct NoForm;

fn width_of(field: Field) -> usize
    ensures { result ≡ width field }
{
    match field {
        Field::U8 => 1,
        Field::U16 | Field::I16 => 2,
        Field::U32 | Field::I32 => 4,
        Field::U64 | Field::I64 => 8,
    }
}

pub(crate) fn place_of(wide: bool, offset: Offset) -> usize
    ensures { result ≡ place wide offset }
{
    match offset {
        Offset::At(at) => at,
        Offset::By(narrow_at, wide_at) => if wide { wide_at } else { narrow_at },
    }
}

fn low_bits(field: Field, word: u64) -> u64
    ensures { result ≡ cut field word }
{
    match field {
        Field::U8 => word % 0x100,
        Field::U16 | Field::I16 => word % 0x1_0000,
        Field::U32 | Field::I32 => word % 0x1_0000_0000,
        Field::U64 | Field::I64 => word,
    }
}

fn word_of(field: Field, bits: u64) -> u64
    requires { bits < 256 ^ width field }
    ensures { result ≡ extended field bits }
{
    match field {
        Field::I16 if bits >= 0x8000 => bits + 0xffff_ffff_ffff_0000,
        Field::I32 if bits >= 0x8000_0000 => bits + 0xffff_ffff_0000_0000,
        _ => bits,
    }
}

fn is_past(field: Field, most: u64, word: u64) -> bool
    ensures { result ≡ is_above field most word }
{
    match field {
        Field::U8 | Field::U16 | Field::U32 | Field::U64 => most < word,
        Field::I16 | Field::I32 | Field::I64 => most.wrapping_add(0x8000_0000_0000_0000)
            < word.wrapping_add(0x8000_0000_0000_0000),
    }
}

fn told_of(field: Field, misfit: Misfit, bits: u64) -> u64
    requires { bits < 256 ^ width field }
    ensures { result ≡ told field misfit bits }
{
    match misfit {
        Misfit::Clamp(_, instead) if bits == low_bits(field, instead) => instead,
        _ => word_of(field, bits),
    }
}

fn form_of(column: Column, word: u64) -> Option<u64>
    ensures { result ≡ word_form column.0 column.2 word }
{
    let Column(field, _, misfit) = column;
    let read_back = told_of(field, misfit, low_bits(field, word));
    match misfit {
        Misfit::Low => Some(read_back),
        Misfit::RefuseAbove(most) if is_past(field, most, word) => None,
        Misfit::Clamp(most, instead) if is_past(field, most, word) => Some(instead),
        Misfit::Clamp(_, _) => Some(read_back),
        _ if read_back == word => Some(word),
        _ => None,
    }
}

fn form_row(columns: &[Column], row: &mut [u64]) -> Result<(), NoForm>
    requires { length row.old ≡ length columns.now }
    ensures answer { is_ok result ≡ is_some (row_form columns.now row.old) }
    ensures words { OnOk result (row_form columns.now row.old ≡ Some row.new) }
{
    match columns {
        [] => Ok(()),
        [column, others @ ..] => {
            let form = form_of(*column, row[0]).ok_or(NoForm)?;
            row[0] = form;
            form_row(others, &mut row[1..])
        }
    }
}

fn clear(out: &mut [u8])
    ensures { out.new ≡ replicate (length out.old) 0 }
{
    out.fill(0);
}

// Zeros up to the field, and its bytes; what follows stays.
fn put_field(out: &mut [u8], gap: usize, width: usize, bits: u64)
    requires low { 1 ≤ width }
    requires high { width ≤ 8 }
    requires room { gap + width ≤ length out.old }
    requires fits { bits < 256 ^ width }
    ensures front { take (gap + width) out.new ≡ replicate gap 0 ++ little_bytes width bits }
{
    clear(&mut out[..gap]);
    LittleEndian::write_uint(&mut out[gap..], bits, width);
}

// `out` has the bytes from offset `from` to the size of the shape.
fn put_columns(
    columns: &[Column],
    wide: bool,
    row: &[u64],
    from: usize,
    size: usize,
    out: &mut [u8],
)
    requires end { from + length out.old ≡ size }
    requires ordered { IsTrue (is_ordered wide from columns.now) }
    requires within { IsTrue (is_within wide size columns.now) }
    requires words { length row.now ≡ length columns.now }
    ensures { out.new ≡ spelled wide from size columns.now row.now }
{
    match columns {
        [] => clear(out),
        [column, others @ ..] => {
            let at = place_of(wide, column.1);
            let width = width_of(column.0);
            let gap = at - from;
            put_field(out, gap, width, low_bits(column.0, row[0]));
            put_columns(
                others,
                wide,
                &row[1..],
                at + width,
                size,
                &mut out[gap + width..],
            );
        }
    }
}

// The number in the bytes of a field.
fn bits_at(from: &[u8], at: usize, field: Field) -> u64
    requires { at + width field ≤ length from.now }
    ensures value { result ≡ little_number (width field) (drop at from.now) }
    ensures fits { result < 256 ^ width field }
{
    LittleEndian::read_uint(&from[at..], width_of(field))
}

// The word that a column's bytes mean.
#[tactic(auto, unfolding(crate::specs::Rows::word_in))]
fn word_at(column: Column, wide: bool, from: &[u8]) -> u64
    requires { place wide column.1 + width column.0 ≤ length from.now }
    ensures { result ≡ word_in wide column from.now }
{
    let Column(field, offset, misfit) = column;
    told_of(field, misfit, bits_at(from, place_of(wide, offset), field))
}

pub(crate) fn get_columns(columns: &[Column], wide: bool, from: &[u8], row: &mut [u64])
    requires within { IsTrue (is_within wide (length from.now) columns.now) }
    requires words { length row.old ≡ length columns.now }
    ensures { row.new ≡ told_row wide columns.now from.now }
{
    match columns {
        [] => {}
        [column, others @ ..] => {
            row[0] = word_at(*column, wide, from);
            get_columns(others, wide, from, &mut row[1..]);
        }
    }
}

// Writes the bytes of a row, which is overwritten by its form.
pub(crate) fn put_columns_of(
    columns: &[Column],
    wide: bool,
    row: &mut [u64],
    out: &mut [u8],
) -> Result<(), NoForm>
    requires table { IsTrue (is_table wide (length out.old) columns.now) }
    requires words { length row.old ≡ length columns.now }
    ensures answer { is_ok result ≡ is_some (row_spelling wide (length out.old) columns.now row.old) }
    ensures bytes { out.new ≡ unwrap_or (row_spelling wide (length out.old) columns.now row.old) out.old }
{
    form_row(columns, row)?;
    put_columns(columns, wide, row, 0, out.len(), out);
    Ok(())
}
