//! What has been seen of a script, and whether a line may stand at its place.

ghost use Rattle.std.specs.Prelude.{◌≡◌, ◌+◌, ◌/◌, ◌^◌, ◌<◌, ◌≤◌, ◌||◌, not, nat_le, length, IfOk, IfSome, OnOk};
ghost use Rattle.std.specs.BTreeSet.{btree_set_len};
ghost use Rattle.file_tree.specs.Image.{is_free_name, has_bytes, image_directory, image_file};
ghost use Rattle.script_reader.specs.Grammar.{line_of, said_by, IsInRange};
ghost use Rattle.script_reader.specs.Seen.{new_seen, has_page, is_covered, image_fault, misplaced, seen_with, is_passed, said, line_told, told_by, IsToldInRange};

use crate::fault::LineCause;
use crate::grammar::{Said, abi_in, read_line};
use crate::record::Record;
use file_tree::FileTree;
use kernel_values::{AbiKind, KernelFault, OutOfMemory};
use std::alloc::Global;
use std::collections::BTreeSet;

/// The most pages of an image.
const MAX_PAGES: usize = 16_384;

const PAGE_SIZE: usize = 4096;

/// The first address that no 32-bit register holds.
const END: usize = 0x1_0000_0000;

/// The number of the page of an address.
fn page_number(at: usize) -> u32
    requires { at < 2 ^ 32 }
    ensures { result ≡ at / 4096 }
{
    (at / PAGE_SIZE) as u32
}

/// An empty line or a comment.
fn is_passed(line: &[u8]) -> bool
    ensures { result ≡ is_passed line.now }
{
    match line.first() {
        Some(b) => *b == b'#',
        None => true,
    }
}

/// What a line says, or its first cause by itself: the header as long as there was none.
fn said(alloc: Global, abi: Option<AbiKind>, line: &[u8]) -> Result<Said, OutOfMemory>
    requires { length line.now < 2 ^ 63 }
    ensures line { IfOk result (λ r. said_by r ≡ said abi line.now) }
    ensures range { IfOk result (λ r. IfOk (said_by r) (λ x. IsInRange x)) }
{
    if let Some(kind) = abi {
        return read_line(alloc, kind, line);
    }
    match abi_in(line) {
        Some(abi) => Ok(Said::Record(Record::Header { abi })),
        None => Ok(Said::Bad(LineCause::Header)),
    }
}

/// What a whole line comes to at its place.
#[derive(Drop)]
pub enum Told {
    Record(Record),
    /// It is empty or a comment.
    Passed,
    /// It is bad, and this is the first cause that holds.
    Bad(LineCause),
}

/// What has been seen of a script so far.
#[derive(Drop)]
pub struct Seen {
    /// How many lines, those that are passed over too.
    pub lines: u64,
    /// What the header says, once there was one.
    pub abi: Option<AbiKind>,
    pub clock: bool,
    pub who: bool,
    pub usage: bool,
    pub restorer: bool,
    /// Whether there was an event: a call, an advance, a signal or a show.
    pub begun: bool,
    /// The numbers of the pages that are mapped.
    pub pages: BTreeSet<u32>,
    /// The directories and files of the image; of their bytes only how many.
    pub files: FileTree,
}

impl Seen {
    /// Nothing seen.
    pub fn new(alloc: Global) -> Result<Seen, OutOfMemory>
        ensures { IfOk result (λ s. s ≡ new_seen) }
    {
        let files = FileTree::new(alloc)?;
        Ok(Seen {
            lines: 0,
            abi: None,
            clock: false,
            who: false,
            usage: false,
            restorer: false,
            begun: false,
            pages: BTreeSet::new(alloc),
            files,
        })
    }

    /// Whether each byte of a range is in a page that is mapped, and the range doesn't pass 2^32. Each page is looked up
    /// once.
    fn covers(&self, at: u32, length: usize) -> bool
        ensures { result ≡ is_covered self.now.pages at length }
    {
        let mut next = at as usize;
        if length > END - next {
            return false;
        }
        let end = next + length;
        while next < end {
            let number = page_number(next);
            if !self.pages.contains(&number) {
                return false;
            }
            next = (number as usize + 1) * PAGE_SIZE;
        }
        true
    }

    /// Why a line of the image may not stand here.
    fn image_fault(&self, given: bool) -> Option<LineCause>
        ensures { result ≡ image_fault self.now given }
    {
        if self.begun {
            return Some(LineCause::Order);
        }
        if given {
            return Some(LineCause::Image);
        }
        None
    }

    /// Whether no page with this number can be mapped any more.
    fn is_page_given(&self, number: u32) -> bool
        ensures { result ≡ (has_page self.now.pages number || nat_le 16384 (btree_set_len self.now.pages)) }
    {
        self.pages.contains(&number) || self.pages.len() >= MAX_PAGES
    }

    /// Why a line may not stand here.
    fn misplaced(&self, entry: &Record) -> Option<LineCause>
        ensures { result ≡ misplaced self.now (line_of entry.now) }
    {
        match entry {
            Record::Clock { .. } => self.image_fault(self.clock),
            Record::Who { .. } => self.image_fault(self.who),
            Record::Usage { .. } => self.image_fault(self.usage),
            Record::Restorer { .. } => self.image_fault(self.restorer),
            Record::Page { at, .. } => self.image_fault(self.is_page_given(page_number(
                *at as usize,
            ))),
            Record::Dir { path, inode } | Record::File { path, inode, .. } => {
                let free = self.files.is_free_name(path.as_slice(), *inode);
                self.image_fault(!free)
            }
            Record::Bytes {
                path,
                offset,
                bytes,
            } => {
                let there = self
                    .files
                    .has_bytes(path.as_slice(), *offset, bytes.len() as u64);
                self.image_fault(!there)
            }
            Record::Lock { path, .. } => {
                let there = self.files.has_bytes(path.as_slice(), 0, 0);
                self.image_fault(!there)
            }
            Record::Poke { at, bytes } => {
                if self.covers(*at, bytes.len()) {
                    None
                } else {
                    Some(LineCause::Image)
                }
            }
            Record::Header { .. }
            | Record::Call { .. }
            | Record::Advance { .. }
            | Record::Post { .. }
            | Record::Show => None,
        }
    }

    /// Puts a directory into the image. Where that is refused the line is misplaced, and the image stays.
    fn see_directory(&mut self, alloc: Global, path: &[u8], inode: u64) -> Result<(), OutOfMemory>
        ensures seen { OnOk result (self.new ≡ record self.old { files = (image_directory self.old.files path.now inode).1 }) }
        ensures lines { self.new.lines ≡ self.old.lines }
    {
        match self.files.image_directory(alloc, path, inode) {
            Ok(()) | Err(KernelFault::Errno(_)) => Ok(()),
            Err(KernelFault::OutOfMemory) => Err(OutOfMemory),
        }
    }

    /// Puts a file into the image. Where that is refused the line is misplaced, and the image stays.
    fn see_file(
        &mut self,
        alloc: Global,
        path: &[u8],
        inode: u64,
        size: u64,
    ) -> Result<(), OutOfMemory>
        ensures seen { OnOk result (self.new ≡ record self.old { files = (image_file self.old.files path.now inode size).1 }) }
        ensures lines { self.new.lines ≡ self.old.lines }
    {
        match self.files.image_file(alloc, path, inode, size) {
            Ok(()) | Err(KernelFault::Errno(_)) => Ok(()),
            Err(KernelFault::OutOfMemory) => Err(OutOfMemory),
        }
    }

    /// Sees a line that may stand here.
    fn see(&mut self, alloc: Global, entry: &Record) -> Result<(), OutOfMemory>
        ensures seen { OnOk result (self.new ≡ seen_with self.old (line_of entry.now)) }
        ensures lines { self.new.lines ≡ self.old.lines }
    {
        match entry {
            Record::Header { abi } => self.abi = Some(*abi),
            Record::Clock { .. } => self.clock = true,
            Record::Who { .. } => self.who = true,
            Record::Usage { .. } => self.usage = true,
            Record::Restorer { .. } => self.restorer = true,
            Record::Page { at, .. } => {
                self.pages.insert(page_number(*at as usize))?;
            }
            Record::Dir { path, inode } => {
                self.see_directory(alloc, path.as_slice(), *inode)?;
            }
            Record::File { path, inode, size } => {
                self.see_file(alloc, path.as_slice(), *inode, *size)?;
            }
            Record::Bytes { .. } | Record::Lock { .. } | Record::Poke { .. } => {}
            Record::Call { .. } | Record::Advance { .. } | Record::Post { .. } | Record::Show =>
                self.begun = true,
        }
        Ok(())
    }

    /// What a whole line comes to, without its line feed.
    #[tactic(auto, unfolding(crate::specs::Seen::line_told))]
    pub fn tell(&mut self, alloc: Global, line: &[u8]) -> Result<Told, OutOfMemory>
        requires few { self.old.lines < 2 ^ 63 }
        requires short { length line.now < 2 ^ 63 }
        ensures told { IfOk result (λ r. told_by r self.new ≡ line_told self.old line.now) }
        ensures range { IfOk result (λ r. IsToldInRange (told_by r self.new)) }
        ensures lines { self.new.lines ≤ self.old.lines + 1 }
    {
        if is_passed(line) {
            self.lines += 1;
            return Ok(Told::Passed);
        }
        let record = match said(alloc, self.abi, line)? {
            Said::Record(record) => record,
            Said::Bad(cause) => return Ok(Told::Bad(cause)),
        };
        if let Some(cause) = self.misplaced(&record) {
            return Ok(Told::Bad(cause));
        }
        self.lines += 1;
        self.see(alloc, &record)?;
        Ok(Told::Record(record))
    }
}
