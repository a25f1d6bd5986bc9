//! Types whose layout is a table.

ghost use Rattle.std.specs.Prelude.{◌≡◌, true, length};
ghost use Rattle.layout_laws.specs.Shapes.{Shape, IsTableOf, is_sound, size_of, form_of, spelling_of, value_of, shape_is_small, shape_has_form, shape_fills, shape_reads_back};

use crate::abi::Abi;
use crate::layout::Layout;
use crate::rows::NoForm;
use crate::table::{Table, bytes_of, get_row, put_row};

/// Columns of the greatest table.
const MOST_COLUMNS: usize = 64;

/// A type whose values stand for rows of words, one for each column of a table. The table gives it a
/// layout in every ABI.
pub trait Tabled: Sized {
    ghost shape: { Shape Self };

    /// The table.
    fn table() -> Table
        ensures { IsTableOf shape result };

    /// Writes the row of the value; a negative number is a word by its two's complement.
    fn put_row(&self, row: &mut [u64])
        requires { length row.old ≡ length shape.columns }
        ensures { row.new ≡ shape.row self.now };

    /// The value of a row.
    fn of_row(row: &[u64]) -> Self
        requires { length row.now ≡ length shape.columns }
        ensures { result ≡ shape.value row.now };

    /// The table is one that can be read and written.
    ghost sound: { is_sound shape ≡ true };
}

impl<A: Abi, T: Tabled> Layout<A> for T {
    ghost SIZE = { size_of T.shape A.ALIGN64 };

    ghost form = { form_of T.shape };

    ghost spelling = { spelling_of T.shape A.ALIGN64 };

    ghost value = { value_of T.shape A.ALIGN64 };

    fn size() -> usize {
        bytes_of::<A>(T::table())
    }

    fn put(&self, out: &mut [u8]) -> Result<(), NoForm> {
        let table = T::table();
        let mut buffer = [0; MOST_COLUMNS];
        let row = &mut buffer[..table.columns.len()];
        self.put_row(row);
        put_row::<A>(table, row, out)
    }

    fn get(from: &[u8]) -> Self {
        let table = T::table();
        let mut buffer = [0; MOST_COLUMNS];
        let row = &mut buffer[..table.columns.len()];
        get_row::<A>(table, from, row);
        T::of_row(row)
    }

    ghost size_small = { shape_is_small T.shape A.ALIGN64 T.sound };

    ghost has_form = { shape_has_form T.shape A.ALIGN64 };

    ghost fills = { shape_fills T.shape A.ALIGN64 T.sound };

    ghost reads_back = { shape_reads_back T.shape A.ALIGN64 T.sound };
}
