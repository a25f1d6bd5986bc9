//! Arguments by place, as the calling conventions of the System V ABI's i386 supplement and of the
//! Procedure Call Standard for Arm (AAPCS32) hand a call's arguments to the kernel.
ghost use Rattle.std.specs.Prelude.{◌≡◌, ◌≤◌, ◌<◌, ◌+◌, ◌^◌, length, slice_index};
ghost use Rattle.abi_registers.specs.Arguments.{args_of, first_place, value_at, words_of};
ghost use Rattle.kernel_values.specs.Abi.{are_pairs_even};
ghost use Rattle.abi_registers.specs.Values.{signed, word};

use kernel_values::AbiKind;

/// How an argument is read from words.
#[derive(Clone, Copy, Debug, PartialEq, Eq)]
pub enum Form {
    /// One word, zero extended: an unsigned number, a pointer, or one half of a 64-bit number that is
    /// handed in halves.
    Word,
    /// One word, sign extended: an `int`, a `long` or a descriptor.
    Signed,
    /// A signed 64-bit number in two words, the low one first: the next two words on i386, and on Arm
    /// the next even register and the one after it.
    Pair,
}

/// The arguments of a call, at most six.
#[derive(Clone, Copy, Debug, PartialEq, Eq)]
pub struct Args {
    /// The arguments in order; those past `count` are 0.
    pub values: [i64; 6],
    /// How many arguments the call has.
    pub count: usize,
}

impl Args {
    /// The argument at a place that has a signed form or is a pair.
    pub fn signed(&self, at: usize) -> i64
        requires { at < 6 }
        ensures { result ≡ signed self.now at }
    {
        self.values[at]
    }

    /// The argument at a place that has the form of a word. What no word can be, a negative number or
    /// one above `0xffff_ffff`, stands there only if the form is another, which no caller asks for; it
    /// is read as 0 in place of a cut word.
    pub fn word(&self, at: usize) -> u32
        requires { at < 6 }
        ensures { result ≡ word self.now at }
    {
        u32::try_from(self.values[at]).unwrap_or(0)
    }
}

fn are_pairs_even(abi: AbiKind) -> bool
    ensures { result ≡ are_pairs_even abi }
{
    match abi {
        AbiKind::Ia32 => false,
        AbiKind::ArmEabi => true,
    }
}

fn first_place(even: bool, form: Form, place: usize) -> usize
    requires { place + 1 < 2 ^ 64 }
    ensures { result ≡ first_place even form place }
{
    match form {
        Form::Pair if even => place + place % 2,
        _ => place,
    }
}

fn words_of(form: Form) -> usize
    ensures { result ≡ words_of form }
{
    match form {
        Form::Word | Form::Signed => 1,
        Form::Pair => 2,
    }
}

fn word_at(words: &[u32; 6], place: usize) -> u32
    ensures { result ≡ slice_index words.now place }
{
    words.get(place).copied().unwrap_or(0)
}

fn value_at(words: &[u32; 6], form: Form, place: usize) -> i64
    requires { place + 1 < 2 ^ 64 }
    ensures { result ≡ value_at words.now form place }
{
    match form {
        Form::Word => i64::from(word_at(words, place)),
        Form::Signed => i64::from(word_at(words, place).cast_signed()),
        Form::Pair => {
            let low = u64::from(word_at(words, place));
            let high = u64::from(word_at(words, place + 1));
            (low + high * 0x1_0000_0000).cast_signed()
        }
    }
}

/// The arguments that stand in six words, one for each form in turn: the first begins at word 0, and
/// each other where the one before it ended, or at the next even word for a `Pair` on Arm. There are
/// at most six forms, and a word past the sixth reads 0.
pub fn from_words(abi: AbiKind, words: &[u32; 6], forms: &[Form]) -> Args
    requires { length forms.now ≤ 6 }
    ensures { result ≡ args_of abi words.now forms.now }
{
    let even = are_pairs_even(abi);
    let mut values = [0; 6];
    let mut count = 0;
    let mut place = 0;
    for form in forms {
        let first = first_place(even, *form, place);
        values[count] = value_at(words, *form, first);
        count += 1;
        place = first + words_of(*form);
    }
    Args { values, count }
}
