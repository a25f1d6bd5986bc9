//! The ABIs, by what decides their layouts.

ghost use Rattle.std.specs.Prelude.{◌≡◌, ℕ, Bool, true, false, Option, Some, None, refl};
ghost use Rattle.kernel_values.specs.declared.abi.AbiKind.{AbiKind};
ghost use Rattle.kernel_values.specs.Abi.{align_of, are_pairs_even};
ghost use Rattle.layout_laws.specs.Abis.{constants_of};

use kernel_values::AbiKind;

/// What an ABI's layouts depend on.
pub trait Abi {
    /// Bytes of a word.
    const WORD: usize;

    /// How 64-bit numbers are aligned in structures, in bytes.
    const ALIGN64: usize;

    /// How the parts of a rule blob are aligned, in bytes.
    const BLOB_ALIGN: usize;

    /// Whether a 64-bit argument in two words begins at an even place.
    const PAIR_EVEN: bool;

    ghost WORD: { ℕ };

    ghost ALIGN64: { ℕ };

    ghost BLOB_ALIGN: { ℕ };

    ghost PAIR_EVEN: { Bool };

    /// The kind of 32-bit process, or none for the 64-bit kernel.
    ghost process: { Option AbiKind };

    /// The constants are those that are defined.
    ghost constants_are: { record { word = WORD; align64 = ALIGN64; blob_align = BLOB_ALIGN; pair_even = PAIR_EVEN } ≡ constants_of process };
}

/// The ABI of a 32-bit process.
pub trait Compat: Abi {
    /// The kind of process.
    const KIND: AbiKind;

    ghost KIND: { AbiKind };

    /// The constants are those of the kind: words of 4 bytes, and its alignment and pairs.
    ghost word_is: { Self.Abi.WORD ≡ 4 };

    ghost align_is: { Self.Abi.ALIGN64 ≡ align_of KIND };

    ghost blob_align_is: { Self.Abi.BLOB_ALIGN ≡ align_of KIND };

    ghost pairs_are: { Self.Abi.PAIR_EVEN ≡ are_pairs_even KIND };
}

/// System V ABI, i386 supplement.
#[derive(Clone, Copy, Debug, PartialEq, Eq)]
pub struct Ia32;

/// Procedure call standard for the Arm architecture (AAPCS32), little-endian.
#[derive(Clone, Copy, Debug, PartialEq, Eq)]
pub struct ArmEabi;

/// The 64-bit kernel's own layout.
#[derive(Clone, Copy, Debug, PartialEq, Eq)]
pub struct Native64;

impl Abi for Ia32 {
    const WORD: usize = 4;

    const ALIGN64: usize = 4;

    const BLOB_ALIGN: usize = 4;

    const PAIR_EVEN: bool = false;

    ghost WORD = { 4 };

    ghost ALIGN64 = { 4 };

    ghost BLOB_ALIGN = { 4 };

    ghost PAIR_EVEN = { false };

    ghost process = { Some AbiKind.Ia32 };

    ghost constants_are = { refl };
}

impl Abi for ArmEabi {
    const WORD: usize = 4;

    const ALIGN64: usize = 8;

    const BLOB_ALIGN: usize = 8;

    const PAIR_EVEN: bool = true;

    ghost WORD = { 4 };

    ghost ALIGN64 = { 8 };

    ghost BLOB_ALIGN = { 8 };

    ghost PAIR_EVEN = { true };

    ghost process = { Some AbiKind.ArmEabi };

    ghost constants_are = { refl };
}

impl Abi for Native64 {
    const WORD: usize = 8;

    const ALIGN64: usize = 8;

    const BLOB_ALIGN: usize = 8;

    const PAIR_EVEN: bool = false;

    ghost WORD = { 8 };

    ghost ALIGN64 = { 8 };

    ghost BLOB_ALIGN = { 8 };

    ghost PAIR_EVEN = { false };

    ghost process = { None };

    ghost constants_are = { refl };
}

impl Compat for Ia32 {
    const KIND: AbiKind = AbiKind::Ia32;

    ghost KIND = { AbiKind.Ia32 };

    ghost word_is = { refl };

    ghost align_is = { refl };

    ghost blob_align_is = { refl };

    ghost pairs_are = { refl };
}

impl Compat for ArmEabi {
    const KIND: AbiKind = AbiKind::ArmEabi;

    ghost KIND = { AbiKind.ArmEabi };

    ghost word_is = { refl };

    ghost align_is = { refl };

    ghost blob_align_is = { refl };

    ghost pairs_are = { refl };
}
