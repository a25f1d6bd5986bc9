//! Fields of a line, and numbers in hexadecimal digits.

ghost use Rattle.std.specs.Prelude.{◌≡◌, ◌+◌, ◌*◌, ◌^◌, ◌<◌, ◌≤◌, ◌&&◌, ◌==◌, [], length, IfOk, IfSome, Some};
ghost use Rattle.std.specs.Option.{option_map};
ghost use Rattle.script_reader.specs.Fields.{same, first_field, after_field, two_fields, three_fields, four_fields, five_fields, digit, digits_from, number, number_below, word, clock, count, fields_in, data_of, is_name, is_graphic, are_names, is_path, path_of, inode_of, size_of};

use hex::FromHexError;
use kernel_values::{OutOfMemory, PathText};
use std::alloc::Global;

/// Whether two texts are the same.
#[tactic(auto, using(crate::proofs::FieldSteps::same_end, crate::proofs::FieldSteps::same_lengths))]
pub fn is_same(text: &[u8], other: &[u8]) -> bool
    ensures { result ≡ same text.now other.now }
{
    if text.len() != other.len() {
        return false;
    }
    for i in 0..text.len() {
        if text[i] != other[i] {
            return false;
        }
    }
    true
}

/// The field in front, and what follows the space behind it.
pub fn cut_field(line: &[u8]) -> (&[u8], Option<&[u8]>)
    ensures first { result.0.now ≡ first_field line.now }
    ensures rest { option_map (λ r. r.now) result.1 ≡ after_field line.now }
{
    for i in 0..line.len() {
        if line[i] == b' ' {
            return (&line[..i], Some(&line[i + 1..]));
        }
    }
    (line, None)
}

/// The field in front, and all behind its space.
#[tactic(auto, unfolding(crate::specs::Fields::two_fields))]
pub fn two_fields(line: &[u8]) -> Option<(&[u8], &[u8])>
    ensures { option_map (λ f. (f.0.now, f.1.now)) result ≡ two_fields line.now }
{
    let (first, after) = cut_field(line);
    Some((first, after?))
}

/// The two fields in front, and all behind their spaces.
#[tactic(auto, unfolding(crate::specs::Fields::three_fields))]
pub fn three_fields(line: &[u8]) -> Option<(&[u8], &[u8], &[u8])>
    ensures { option_map (λ f. (f.0.now, f.1.now, f.2.now)) result ≡ three_fields line.now }
{
    let (first, after) = cut_field(line);
    let (second, third) = two_fields(after?)?;
    Some((first, second, third))
}

/// The three fields in front, and all behind their spaces.
#[tactic(auto, unfolding(crate::specs::Fields::four_fields))]
pub fn four_fields(line: &[u8]) -> Option<(&[u8], &[u8], &[u8], &[u8])>
    ensures { option_map (λ f. (f.0.now, f.1.now, f.2.now, f.3.now)) result ≡ four_fields line.now }
{
    let (first, after) = cut_field(line);
    let (second, third, fourth) = three_fields(after?)?;
    Some((first, second, third, fourth))
}

/// The four fields in front, and all behind their spaces.
#[tactic(auto, unfolding(crate::specs::Fields::five_fields))]
pub fn five_fields(line: &[u8]) -> Option<(&[u8], &[u8], &[u8], &[u8], &[u8])>
    ensures { option_map (λ f. (f.0.now, f.1.now, f.2.now, f.3.now, f.4.now)) result ≡ five_fields line.now }
{
    let (first, after) = cut_field(line);
    let (second, third, fourth, fifth) = four_fields(after?)?;
    Some((first, second, third, fourth, fifth))
}

fn digit_value(c: u8) -> Option<u8>
    ensures value { result ≡ digit c }
    ensures small { IfSome result (λ d. d < 16) }
{
    match c {
        b'0'..=b'9' => Some(c - b'0'),
        b'a'..=b'f' => Some(c - b'a' + 10),
        b'A'..=b'F' => Some(c - b'A' + 10),
        _ => None,
    }
}

/// The number of at most 16 digits.
fn digits_value(digits: &[u8]) -> Option<u64>
    requires { length digits.now ≤ 16 }
    ensures { result ≡ digits_from 0 digits.now }
{
    let mut value: u64 = 0;
    for c in digits {
        let Some(d) = digit_value(*c) else {
            return None;
        };
        value = value * 16 + u64::from(d);
    }
    Some(value)
}

/// The number of a field of 1 to 16 digits.
pub fn number_in(field: &[u8]) -> Option<u64>
    ensures { result ≡ number field.now }
{
    if field.is_empty() || field.len() > 16 {
        return None;
    }
    digits_value(field)
}

/// The number of a field that is below 2^32.
pub fn word_in(field: &[u8]) -> Option<u32>
    ensures { result ≡ word field.now }
{
    let n = number_in(field)?;
    u32::try_from(n).ok()
}

/// The number of a field that is below 2^62.
pub fn clock_in(field: &[u8]) -> Option<u64>
    ensures is { result ≡ clock field.now }
    ensures below { IfSome result (λ n. n < 2 ^ 62) }
{
    let n = number_in(field)?;
    if n < 1 << 62 { Some(n) } else { None }
}

/// The number of a field that is below 2^63.
pub fn count_in(field: &[u8]) -> Option<i64>
    ensures { result ≡ count field.now }
{
    let n = number_in(field)?;
    i64::try_from(n).ok()
}

/// `N` words and no more.
pub fn words_in<const N: usize>(rest: &[u8]) -> Option<[u32; N]>
    ensures { result ≡ fields_in word N (Some rest.now) }
{
    let mut words = [0u32; N];
    let mut left = Some(rest);
    for i in 0..N {
        let Some(line) = left else {
            return None;
        };
        let (field, after) = cut_field(line);
        let Some(word) = word_in(field) else {
            return None;
        };
        words[i] = word;
        left = after;
    }
    match left {
        Some(_) => None,
        None => Some(words),
    }
}

/// `N` numbers below 2^63 and no more.
pub fn counts_in<const N: usize>(rest: &[u8]) -> Option<[i64; N]>
    ensures { result ≡ fields_in count N (Some rest.now) }
{
    let mut counts = [0i64; N];
    let mut left = Some(rest);
    for i in 0..N {
        let Some(line) = left else {
            return None;
        };
        let (field, after) = cut_field(line);
        let Some(count) = count_in(field) else {
            return None;
        };
        counts[i] = count;
        left = after;
    }
    match left {
        Some(_) => None,
        None => Some(counts),
    }
}

/// The bytes of a field.
pub fn bytes_in(alloc: Global, field: &[u8]) -> Result<Option<Vec<u8>>, OutOfMemory>
    ensures { IfOk result (λ r. option_map (λ v. v.items) r ≡ data_of field.now) }
{
    if is_same(field, b"-") {
        return Ok(Some(Vec::new(alloc)));
    }
    if field.is_empty() {
        return Ok(None);
    }
    match hex::decode(alloc, field) {
        Ok(bytes) => Ok(Some(bytes)),
        Err(FromHexError::OutOfMemory) => Err(OutOfMemory),
        Err(_) => Ok(None),
    }
}

/// A name in a path.
#[tactic(auto, unfolding(crate::specs::Fields::is_name))]
fn is_name(name: &[u8]) -> bool
    ensures { result ≡ is_name name.now }
{
    1 <= name.len() && name.len() <= 255 && !is_same(name, b".") && !is_same(name, b"..")
}

fn is_graphic(b: u8) -> bool
    ensures { result ≡ is_graphic b }
{
    0x21 <= b && b <= 0x7e
}

/// Names with a slash between two.
fn are_names(bytes: &[u8]) -> bool
    ensures { result ≡ are_names [] bytes.now }
{
    let mut from: usize = 0;
    for i in 0..bytes.len() {
        if bytes[i] == b'/' {
            if !is_name(&bytes[from..i]) {
                return false;
            }
            from = i + 1;
            continue;
        }
        if !is_graphic(bytes[i]) {
            return false;
        }
    }
    is_name(&bytes[from..])
}

/// Names with a slash before each.
fn is_path(field: &[u8]) -> bool
    ensures { result ≡ is_path field.now }
{
    match field.first() {
        Some(b) => *b == b'/' && are_names(&field[1..]),
        None => false,
    }
}

/// The path of a field.
pub fn path_in(alloc: Global, field: &[u8]) -> Result<Option<PathText>, OutOfMemory>
    ensures { IfOk result (λ r. r ≡ path_of field.now) }
{
    if !is_path(field) {
        return Ok(None);
    }
    let path = PathText::from_slice(alloc, field)?;
    Ok(Some(path))
}

/// The number of an inode: 1 to 2^63 - 1.
pub fn inode_in(field: &[u8]) -> Option<u64>
    ensures { result ≡ inode_of field.now }
{
    let n = number_in(field)?;
    if n < 1 << 63 && 1 <= n { Some(n) } else { None }
}

/// The size of a file: at most 2^40.
pub fn size_in(field: &[u8]) -> Option<u64>
    ensures is { result ≡ size_of field.now }
    ensures most { IfSome result (λ n. n ≤ 2 ^ 40) }
{
    let n = number_in(field)?;
    if n <= 1 << 40 { Some(n) } else { None }
}
