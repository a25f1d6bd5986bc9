//! The shapes of an ABI.

ghost use Rattle.std.specs.Prelude.{◌≡◌, ◌≤◌, ℕ, List, Option, Some, length, is_ok, is_some, unwrap_or};

use crate::abi::Abi;
use crate::rows::NoForm;

/// A type with a layout in the ABI `A`.
pub trait Layout<A: Abi>: Sized {
    ghost SIZE: { ℕ };

    /// The value as the layout can hold it, or none.
    ghost form: { Self → Option Self };

    /// The bytes of the form, with 0 where no field stands.
    ghost spelling: { Self → Option (List ℕ) };

    /// The value that bytes mean.
    ghost value: { List ℕ → Self };

    /// Bytes of the shape.
    fn size() -> usize
        ensures { result ≡ SIZE };

    /// Writes the bytes of the value, or says that it has no form and writes nothing.
    fn put(&self, out: &mut [u8]) -> Result<(), NoForm>
        requires { length out.old ≡ SIZE }
        ensures answer { is_ok result ≡ is_some (spelling self.now) }
        ensures bytes { out.new ≡ unwrap_or (spelling self.now) out.old };

    /// Reads the value; bytes where no field stands are free.
    fn get(from: &[u8]) -> Self
        requires { length from.now ≡ SIZE }
        ensures { result ≡ value from.now };

    /// A shape has at most 1,024 bytes.
    ghost size_small: { SIZE ≤ 1024 };

    /// A value has bytes exactly where it has a form.
    ghost has_form: { (v : Self) → is_some (spelling v) ≡ is_some (form v) };

    /// These bytes fill the shape.
    ghost fills: { (v : Self) (bs : List ℕ) → spelling v ≡ Some bs → length bs ≡ SIZE };

    /// What is read back from a value's bytes is its form.
    ghost reads_back: { (v : Self) (bs : List ℕ) → spelling v ≡ Some bs → form v ≡ Some (value bs) };
}
