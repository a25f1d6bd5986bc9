//! Pieces of text at the end of a buffer.

ghost use Rattle.std.specs.Prelude.{◌≡◌, ◌++◌, ◌∷◌, [], OnOk};
ghost use Rattle.std.specs.Fmt.{decimal};
ghost use Rattle.hex.specs.Hex.{encode_lower};
ghost use Rattle.report_text.specs.Text.{word_text, hex_text, words_text};

use kernel_values::OutOfMemory;
use std::alloc::Global;

/// Appends bytes as they are.
pub fn put(out: &mut Vec<u8>, text: &[u8]) -> Result<(), OutOfMemory>
    ensures { OnOk result (out.new.items ≡ out.old.items ++ text.now) }
{
    out.extend_from_slice(text)?;
    Ok(())
}

/// Appends a number in decimal.
pub fn put_decimal(alloc: Global, out: &mut Vec<u8>, n: u64) -> Result<(), OutOfMemory>
    ensures { OnOk result (out.new.items ≡ out.old.items ++ decimal n) }
{
    let text = format!(in alloc; "{n}")?;
    out.extend_from_slice(text.as_bytes())?;
    Ok(())
}

/// Appends a number in hexadecimal without leading zeros.
pub fn put_hex(alloc: Global, out: &mut Vec<u8>, n: u64) -> Result<(), OutOfMemory>
    ensures { OnOk result (out.new.items ≡ out.old.items ++ hex_text n) }
{
    let text = format!(in alloc; "{n:x}")?;
    out.extend_from_slice(text.as_bytes())?;
    Ok(())
}

/// Appends bytes, two digits each.
pub fn put_bytes(alloc: Global, out: &mut Vec<u8>, bytes: &[u8]) -> Result<(), OutOfMemory>
    ensures { OnOk result (out.new.items ≡ out.old.items ++ encode_lower bytes.now) }
{
    let text = hex::encode(alloc, bytes)?;
    out.extend_from_slice(text.as_bytes())?;
    Ok(())
}

/// Appends a word in 8 digits.
pub fn put_word(alloc: Global, out: &mut Vec<u8>, word: u32) -> Result<(), OutOfMemory>
    ensures { OnOk result (out.new.items ≡ out.old.items ++ word_text word) }
{
    put_bytes(alloc, out, &word.to_be_bytes())
}

/// Appends words, each behind a space.
pub fn put_words(alloc: Global, out: &mut Vec<u8>, words: &[u32]) -> Result<(), OutOfMemory>
    ensures { OnOk result (out.new.items ≡ out.old.items ++ words_text words.now) }
{
    for word in words {
        out.push(b' ')?;
        put_word(alloc, out, *word)?;
    }
    Ok(())
}
