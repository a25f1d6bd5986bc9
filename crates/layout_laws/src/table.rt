//! The table of a whole shape, and its one writer and reader.

ghost use Rattle.std.specs.Prelude.{◌≡◌, length, is_ok, is_some, unwrap_or, IsTrue};
ghost use Rattle.layout_laws.specs.Columns.{is_wide, place};
ghost use Rattle.layout_laws.specs.Rows.{is_shape};
ghost use Rattle.layout_laws.specs.Shapes.{spelled_row, row_in};

use crate::abi::Abi;
use crate::columns::{Column, Offset};
use crate::rows::{NoForm, get_columns, place_of, put_columns_of};

/// The size of a shape and its fields.
#[derive(Clone, Copy, Debug, PartialEq, Eq)]
pub struct Table {
    /// Bytes of the shape.
    pub size: Offset,
    /// Its fields, in order of offset.
    pub columns: &'static [Column],
}

/// Bytes of a shape in the ABI `A`.
pub fn bytes_of<A: Abi>(table: Table) -> usize
    ensures { result ≡ place (is_wide A.ALIGN64) table.size }
{
    place_of(A::ALIGN64 > 4, table.size)
}

/// Writes the bytes of a row in the ABI `A`, with 0 where no column stands, and overwrites the row by
/// its form. A row without form changes no byte.
#[tactic(auto, using(crate::specs::Laws::shape_table), unfolding(crate::specs::Shapes::spelled_row))]
pub fn put_row<A: Abi>(table: Table, row: &mut [u64], out: &mut [u8]) -> Result<(), NoForm>
    requires sound { IsTrue (is_shape table.size table.columns.now) }
    requires words { length row.old ≡ length table.columns.now }
    requires size { length out.old ≡ place (is_wide A.ALIGN64) table.size }
    ensures answer { is_ok result ≡ is_some (spelled_row A.ALIGN64 table.size table.columns.now row.old) }
    ensures bytes { out.new ≡ unwrap_or (spelled_row A.ALIGN64 table.size table.columns.now row.old) out.old }
{
    put_columns_of(table.columns, A::ALIGN64 > 4, row, out)
}

/// Reads the row that bytes mean in the ABI `A`; bytes where no column stands are free.
#[tactic(auto, using(crate::specs::Laws::shape_table), unfolding(crate::specs::Shapes::row_in))]
pub fn get_row<A: Abi>(table: Table, from: &[u8], row: &mut [u64])
    requires sound { IsTrue (is_shape table.size table.columns.now) }
    requires words { length row.old ≡ length table.columns.now }
    requires size { length from.now ≡ place (is_wide A.ALIGN64) table.size }
    ensures { row.new ≡ row_in A.ALIGN64 table.columns.now from.now }
{
    get_columns(table.columns, A::ALIGN64 > 4, from, row);
}
