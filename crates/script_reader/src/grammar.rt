//! What each line of a script says by itself: the header, `clock`, `who`, `usage`, `restorer`, `page`, `dir`, `file`,
//! `data`, `lock`, `poke`, `call`, `advance`, `post`, `queue` and `show`.

ghost use Rattle.std.specs.Prelude.{◌≡◌, ◌^◌, ◌<◌, ◌≤◌, [], length, IfOk, IfSome};
ghost use Rattle.std.specs.Option.{option_map, unwrap_or};
ghost use Rattle.script_reader.specs.Grammar.{line_of, IsInRange, abi_of, pid_of, privilege_of, rights_of, clock_line, who_line, usage_line, restorer_line, page_line, dir_line, file_line, bytes_line, holder_of, lock_kind_of, lock_line, poke_line, registers_in, call_line, advance_line, signal_of, post_line, queue_line, keyword_of, fields_of, field_count, line_about, said_by, read_line};

use crate::fault::LineCause;
use crate::fields::{
    bytes_in, clock_in, counts_in, cut_field, five_fields, four_fields, inode_in, is_same,
    number_in, path_in, size_in, three_fields, two_fields, word_in, words_in,
};
use crate::record::Record;
use abi_registers::Registers;
use kernel_values::{AbiKind, ByteList, Credentials, OutOfMemory, SigInfo, Usage};
use std::alloc::Global;

/// What a line says by itself.
#[derive(Drop)]
pub enum Said {
    Record(Record),
    /// It is bad, and this is the first cause that holds.
    Bad(LineCause),
}

/// The first field of a line other than the header: what the line is about.
#[derive(Clone, Copy, Debug, PartialEq, Eq)]
pub enum Keyword {
    Clock,
    Who,
    Usage,
    Restorer,
    Page,
    Dir,
    File,
    Bytes,
    Lock,
    Poke,
    Call,
    Advance,
    Post,
    Queue,
    Show,
}

/// The ABI that a header names.
#[tactic(auto, unfolding(crate::specs::Grammar::abi_of))]
pub fn abi_in(line: &[u8]) -> Option<AbiKind>
    ensures { result ≡ abi_of line.now }
{
    if is_same(line, b"abi ia32 1") {
        return Some(AbiKind::Ia32);
    }
    if is_same(line, b"abi arm 1") {
        return Some(AbiKind::ArmEabi);
    }
    None
}

#[tactic(auto, unfolding(crate::specs::Grammar::clock_line))]
fn clock_of(rest: &[u8]) -> Option<Record>
    ensures line { option_map line_of result ≡ clock_line rest.now }
    ensures range { IfSome result (λ x. IsInRange (line_of x)) }
{
    let (first, second) = two_fields(rest)?;
    let real = clock_in(first)?;
    let monotonic = clock_in(second)?;
    Some(Record::Clock { real, monotonic })
}

/// The number of a process: 1 to 2^22 - 1.
fn pid_in(field: &[u8]) -> Option<u32>
    ensures { result ≡ pid_of field.now }
{
    let pid = word_in(field)?;
    if 1 <= pid && pid <= 0x3f_ffff {
        Some(pid)
    } else {
        None
    }
}

fn privilege_in(field: &[u8]) -> Option<bool>
    ensures { result ≡ privilege_of field.now }
{
    if is_same(field, b"0") {
        return Some(false);
    }
    if is_same(field, b"1") {
        return Some(true);
    }
    None
}

#[tactic(auto, unfolding(crate::specs::Grammar::who_line))]
fn who_of(rest: &[u8]) -> Option<Record>
    ensures line { option_map line_of result ≡ who_line rest.now }
    ensures range { IfSome result (λ x. IsInRange (line_of x)) }
{
    let (first, second, third, fourth) = four_fields(rest)?;
    let pid = pid_in(first)?;
    let uid = word_in(second)?;
    let gid = word_in(third)?;
    let privileged = privilege_in(fourth)?;
    let owner = Credentials { pid, uid, gid };
    Some(Record::Who { owner, privileged })
}

#[tactic(auto, unfolding(crate::specs::Grammar::usage_line))]
fn usage_of(rest: &[u8]) -> Option<Record>
    ensures line { option_map line_of result ≡ usage_line rest.now }
    ensures range { IfSome result (λ x. IsInRange (line_of x)) }
{
    let words = counts_in::<18>(rest)?;
    let usage = Usage { words };
    Some(Record::Usage { usage })
}

#[tactic(auto, unfolding(crate::specs::Grammar::restorer_line))]
fn restorer_of(rest: &[u8]) -> Option<Record>
    ensures line { option_map line_of result ≡ restorer_line rest.now }
    ensures range { IfSome result (λ x. IsInRange (line_of x)) }
{
    let address = word_in(rest)?;
    Some(Record::Restorer { address })
}

fn rights_in(field: &[u8]) -> Option<bool>
    ensures { result ≡ rights_of field.now }
{
    if is_same(field, b"r") {
        return Some(false);
    }
    if is_same(field, b"rw") {
        return Some(true);
    }
    None
}

#[tactic(auto, unfolding(crate::specs::Grammar::page_line))]
fn page_of(alloc: Global, rest: &[u8]) -> Result<Option<Record>, OutOfMemory>
    ensures line { IfOk result (λ r. option_map line_of r ≡ page_line rest.now) }
    ensures range { IfOk result (λ r. IfSome r (λ x. IsInRange (line_of x))) }
{
    let Some((first, second, third)) = three_fields(rest) else {
        return Ok(None);
    };
    let Some(at) = word_in(first) else {
        return Ok(None);
    };
    let Some(writable) = rights_in(second) else {
        return Ok(None);
    };
    let Some(bytes) = bytes_in(alloc, third)? else {
        return Ok(None);
    };
    if at % 4096 == 0 && bytes.len() <= 4096 {
        return Ok(Some(Record::Page {
            at,
            writable,
            bytes,
        }));
    }
    Ok(None)
}

#[tactic(auto, unfolding(crate::specs::Grammar::dir_line))]
fn dir_of(alloc: Global, rest: &[u8]) -> Result<Option<Record>, OutOfMemory>
    ensures line { IfOk result (λ r. option_map line_of r ≡ dir_line rest.now) }
    ensures range { IfOk result (λ r. IfSome r (λ x. IsInRange (line_of x))) }
{
    let Some((first, second)) = two_fields(rest) else {
        return Ok(None);
    };
    let Some(inode) = inode_in(second) else {
        return Ok(None);
    };
    let Some(path) = path_in(alloc, first)? else {
        return Ok(None);
    };
    Ok(Some(Record::Dir { path, inode }))
}

#[tactic(auto, unfolding(crate::specs::Grammar::file_line))]
fn file_of(alloc: Global, rest: &[u8]) -> Result<Option<Record>, OutOfMemory>
    ensures line { IfOk result (λ r. option_map line_of r ≡ file_line rest.now) }
    ensures range { IfOk result (λ r. IfSome r (λ x. IsInRange (line_of x))) }
{
    let Some((first, second, third)) = three_fields(rest) else {
        return Ok(None);
    };
    let Some(inode) = inode_in(second) else {
        return Ok(None);
    };
    let Some(size) = size_in(third) else {
        return Ok(None);
    };
    let Some(path) = path_in(alloc, first)? else {
        return Ok(None);
    };
    Ok(Some(Record::File { path, inode, size }))
}

#[tactic(auto, unfolding(crate::specs::Grammar::bytes_line))]
fn bytes_of(alloc: Global, rest: &[u8]) -> Result<Option<Record>, OutOfMemory>
    ensures line { IfOk result (λ r. option_map line_of r ≡ bytes_line rest.now) }
    ensures range { IfOk result (λ r. IfSome r (λ x. IsInRange (line_of x))) }
{
    let Some((first, second, third)) = three_fields(rest) else {
        return Ok(None);
    };
    let Some(offset) = number_in(second) else {
        return Ok(None);
    };
    let Some(path) = path_in(alloc, first)? else {
        return Ok(None);
    };
    let Some(bytes) = bytes_in(alloc, third)? else {
        return Ok(None);
    };
    let bytes = ByteList::from_vec(bytes);
    Ok(Some(Record::Bytes {
        path,
        offset,
        bytes,
    }))
}

/// Whether a lock is one of writers.
fn lock_kind_in(field: &[u8]) -> Option<bool>
    ensures { result ≡ lock_kind_of field.now }
{
    if is_same(field, b"r") {
        return Some(false);
    }
    if is_same(field, b"w") {
        return Some(true);
    }
    None
}

/// The process that has a lock, below 2^31.
fn holder_in(field: &[u8]) -> Option<u32>
    ensures { result ≡ holder_of field.now }
{
    let n = number_in(field)?;
    if n < 1 << 31 { Some(n as u32) } else { None }
}

#[tactic(auto, unfolding(crate::specs::Grammar::lock_line))]
fn lock_of(alloc: Global, rest: &[u8]) -> Result<Option<Record>, OutOfMemory>
    ensures line { IfOk result (λ r. option_map line_of r ≡ lock_line rest.now) }
    ensures range { IfOk result (λ r. IfSome r (λ x. IsInRange (line_of x))) }
{
    let Some((first, second, third, fourth, fifth)) = five_fields(rest) else {
        return Ok(None);
    };
    let Some(write) = lock_kind_in(second) else {
        return Ok(None);
    };
    let Some(start) = number_in(third) else {
        return Ok(None);
    };
    let Some(length) = number_in(fourth) else {
        return Ok(None);
    };
    let Some(pid) = holder_in(fifth) else {
        return Ok(None);
    };
    let Some(path) = path_in(alloc, first)? else {
        return Ok(None);
    };
    if u128::from(start) + u128::from(length) > 1 << 63 {
        return Ok(None);
    }
    Ok(Some(Record::Lock {
        path,
        write,
        start,
        length,
        pid,
    }))
}

#[tactic(auto, unfolding(crate::specs::Grammar::poke_line))]
fn poke_of(alloc: Global, rest: &[u8]) -> Result<Option<Record>, OutOfMemory>
    ensures line { IfOk result (λ r. option_map line_of r ≡ poke_line rest.now) }
    ensures range { IfOk result (λ r. IfSome r (λ x. IsInRange (line_of x))) }
{
    let Some((first, second)) = two_fields(rest) else {
        return Ok(None);
    };
    let Some(at) = word_in(first) else {
        return Ok(None);
    };
    let Some(bytes) = bytes_in(alloc, second)? else {
        return Ok(None);
    };
    Ok(Some(Record::Poke { at, bytes }))
}

/// The registers of a process.
fn registers_of(abi: AbiKind, rest: &[u8]) -> Option<Registers>
    ensures { result ≡ registers_in abi rest.now }
{
    match abi {
        AbiKind::Ia32 => words_in::<10>(rest).map(Registers::Ia32),
        AbiKind::ArmEabi => words_in::<17>(rest).map(Registers::Arm),
    }
}

#[tactic(auto, unfolding(crate::specs::Grammar::call_line))]
fn call_of(abi: AbiKind, rest: &[u8]) -> Option<Record>
    ensures line { option_map line_of result ≡ call_line abi rest.now }
    ensures range { IfSome result (λ x. IsInRange (line_of x)) }
{
    let registers = registers_of(abi, rest)?;
    Some(Record::Call { registers })
}

#[tactic(auto, unfolding(crate::specs::Grammar::advance_line))]
fn advance_of(rest: &[u8]) -> Option<Record>
    ensures line { option_map line_of result ≡ advance_line rest.now }
    ensures range { IfSome result (λ x. IsInRange (line_of x)) }
{
    let nanos = clock_in(rest)?;
    Some(Record::Advance { nanos })
}

/// The number of a signal: 1 to 64.
fn signal_in(field: &[u8]) -> Option<u32>
    ensures is { result ≡ signal_of field.now }
    ensures range { IfSome result (λ n. (1 ≤ n) × (n ≤ 64)) }
{
    let n = number_in(field)?;
    if 1 <= n && n <= 64 {
        Some(n as u32)
    } else {
        None
    }
}

#[tactic(auto, unfolding(crate::specs::Grammar::post_line))]
fn post_of(rest: &[u8]) -> Option<Record>
    ensures line { option_map line_of result ≡ post_line rest.now }
    ensures range { IfSome result (λ x. IsInRange (line_of x)) }
{
    let (first, second, third) = three_fields(rest)?;
    let signal = signal_in(first)?;
    let pid = word_in(second)?;
    let uid = word_in(third)?;
    let info = SigInfo {
        signal,
        errno: 0,
        code: 0,
        pid,
        uid,
        value: 0,
    };
    Some(Record::Post { info })
}

#[tactic(auto, unfolding(crate::specs::Grammar::queue_line))]
fn queue_of(rest: &[u8]) -> Option<Record>
    ensures line { option_map line_of result ≡ queue_line rest.now }
    ensures range { IfSome result (λ x. IsInRange (line_of x)) }
{
    let (first, second, third, fourth) = four_fields(rest)?;
    let signal = signal_in(first)?;
    let pid = word_in(second)?;
    let uid = word_in(third)?;
    let value = word_in(fourth)?;
    let info = SigInfo {
        signal,
        errno: 0,
        code: -1,
        pid,
        uid,
        value: u64::from(value),
    };
    Some(Record::Post { info })
}

/// What a line is about, by its first field.
#[tactic(auto, unfolding(crate::specs::Grammar::keyword_of))]
fn keyword_in(name: &[u8]) -> Option<Keyword>
    ensures { result ≡ keyword_of name.now }
{
    if is_same(name, b"call") {
        return Some(Keyword::Call);
    }
    if is_same(name, b"advance") {
        return Some(Keyword::Advance);
    }
    if is_same(name, b"poke") {
        return Some(Keyword::Poke);
    }
    if is_same(name, b"page") {
        return Some(Keyword::Page);
    }
    if is_same(name, b"dir") {
        return Some(Keyword::Dir);
    }
    if is_same(name, b"file") {
        return Some(Keyword::File);
    }
    if is_same(name, b"data") {
        return Some(Keyword::Bytes);
    }
    if is_same(name, b"lock") {
        return Some(Keyword::Lock);
    }
    if is_same(name, b"clock") {
        return Some(Keyword::Clock);
    }
    if is_same(name, b"who") {
        return Some(Keyword::Who);
    }
    if is_same(name, b"usage") {
        return Some(Keyword::Usage);
    }
    if is_same(name, b"restorer") {
        return Some(Keyword::Restorer);
    }
    if is_same(name, b"show") {
        return Some(Keyword::Show);
    }
    if is_same(name, b"post") {
        return Some(Keyword::Post);
    }
    if is_same(name, b"queue") {
        return Some(Keyword::Queue);
    }
    None
}

/// How many fields a line has, its first one among them.
fn fields_of(abi: AbiKind, keyword: Keyword) -> usize
    ensures { result ≡ fields_of abi keyword }
{
    match keyword {
        Keyword::Clock => 3,
        Keyword::Who => 5,
        Keyword::Usage => 19,
        Keyword::Restorer => 2,
        Keyword::Page => 4,
        Keyword::Dir => 3,
        Keyword::File => 4,
        Keyword::Bytes => 4,
        Keyword::Lock => 6,
        Keyword::Poke => 3,
        Keyword::Call => match abi {
            AbiKind::Ia32 => 11,
            AbiKind::ArmEabi => 18,
        },
        Keyword::Advance => 2,
        Keyword::Post => 4,
        Keyword::Queue => 5,
        Keyword::Show => 1,
    }
}

/// What a line says, from the fields behind its first one.
#[tactic(auto, unfolding(crate::specs::Grammar::line_about))]
fn record_about(
    alloc: Global,
    abi: AbiKind,
    keyword: Keyword,
    rest: &[u8],
) -> Result<Option<Record>, OutOfMemory>
    ensures line { IfOk result (λ r. option_map line_of r ≡ line_about abi keyword rest.now) }
    ensures range { IfOk result (λ r. IfSome r (λ x. IsInRange (line_of x))) }
{
    match keyword {
        Keyword::Clock => Ok(clock_of(rest)),
        Keyword::Who => Ok(who_of(rest)),
        Keyword::Usage => Ok(usage_of(rest)),
        Keyword::Restorer => Ok(restorer_of(rest)),
        Keyword::Page => page_of(alloc, rest),
        Keyword::Dir => dir_of(alloc, rest),
        Keyword::File => file_of(alloc, rest),
        Keyword::Bytes => bytes_of(alloc, rest),
        Keyword::Lock => lock_of(alloc, rest),
        Keyword::Poke => poke_of(alloc, rest),
        Keyword::Call => Ok(call_of(abi, rest)),
        Keyword::Advance => Ok(advance_of(rest)),
        Keyword::Post => Ok(post_of(rest)),
        Keyword::Queue => Ok(queue_of(rest)),
        Keyword::Show => Ok(Some(Record::Show)),
    }
}

/// How many fields a line has.
fn field_count(line: &[u8]) -> usize
    requires { length line.now < 2 ^ 63 }
    ensures { result ≡ field_count line.now }
{
    line.iter().filter(|b| **b == b' ').count() + 1
}

/// What stands behind the first field and its space; nothing where there is no space.
fn rest_in(after: Option<&[u8]>) -> &[u8]
    ensures { result.now ≡ unwrap_or (option_map (λ r. r.now) after.entry) [] }
{
    match after {
        Some(rest) => rest,
        None => &[],
    }
}

/// What a line other than the header says, or its first cause by itself.
#[tactic(auto, unfolding(crate::specs::Grammar::read_line))]
pub fn read_line(alloc: Global, abi: AbiKind, line: &[u8]) -> Result<Said, OutOfMemory>
    requires { length line.now < 2 ^ 63 }
    ensures line { IfOk result (λ r. said_by r ≡ read_line abi line.now) }
    ensures range { IfOk result (λ r. IfOk (said_by r) (λ x. IsInRange x)) }
{
    let (name, after) = cut_field(line);
    let Some(keyword) = keyword_in(name) else {
        return Ok(Said::Bad(LineCause::Word));
    };
    if field_count(line) != fields_of(abi, keyword) {
        return Ok(Said::Bad(LineCause::Count));
    }
    match record_about(alloc, abi, keyword, rest_in(after))? {
        Some(record) => Ok(Said::Record(record)),
        None => Ok(Said::Bad(LineCause::Field)),
    }
}
