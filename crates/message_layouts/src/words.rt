//! Numbers narrower than a word of a row.

ghost use Rattle.std.specs.Prelude.{◌≡◌, ◌%◌, ◌^◌};
ghost use Rattle.std.specs.Int.{w32, cast_signed};

/// The low 32 bits of a word.
pub(crate) fn low_half(word: u64) -> u32
    ensures { result ≡ word % 2 ^ 32 }
{
    (word % 0x1_0000_0000) as u32
}

/// The low 32 bits of a word, as a signed number.
pub(crate) fn signed_half(word: u64) -> i32
    ensures { result ≡ cast_signed w32 (word % 2 ^ 32) }
{
    low_half(word).cast_signed()
}
