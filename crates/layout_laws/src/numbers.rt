//! Signed numbers as the words of a row, and back.

ghost use Rattle.std.specs.Prelude.{◌≡◌, length, map};
ghost use Rattle.std.specs.Int.{w64, cast_signed, cast_unsigned};

/// Puts the word of each number.
pub fn put_words(numbers: &[i64], words: &mut [u64])
    requires { length words.old ≡ length numbers.now }
    ensures { words.new ≡ map (cast_unsigned w64) numbers.now }
{
    match numbers {
        [] => {}
        [number, others @ ..] => {
            words[0] = number.cast_unsigned();
            put_words(others, &mut words[1..]);
        }
    }
}

/// Puts the number of each word.
pub fn put_numbers(words: &[u64], numbers: &mut [i64])
    requires { length numbers.old ≡ length words.now }
    ensures { numbers.new ≡ map (cast_signed w64) words.now }
{
    match words {
        [] => {}
        [word, others @ ..] => {
            numbers[0] = word.cast_signed();
            put_numbers(others, &mut numbers[1..]);
        }
    }
}
