//! Opening by a path.

ghost use Rattle.std.specs.Prelude.{◌≡◌, false, IfOk, OnOk, None, Some};
ghost use Rattle.kernel_values.specs.Outcome.{Gives, Tells, settled};
ghost use Rattle.file_tree.specs.Making.{next_inode};
ghost use Rattle.open_files.specs.Made.{HasRoom, is_full};
ghost use Rattle.file_store.specs.Opening.{admitted, kind_of, new_open_file, open_path, opened_missing, opened_present, truncated, with_file};

use crate::state::Files;
use file_tables::{Last, ends_with_slash};
use file_tree::Maker;
use kernel_values::{Answer, Errno, KernelFault, MOST_NARROW, OpenFlags, OpenKind, OutOfMemory};
use open_files::OpenFile;
use std::alloc::Global;

impl Files {
    /// What an inode is.
    fn kind_of(&self, inode: u64) -> OpenKind
        ensures { result ≡ kind_of self.now inode }
    {
        if self.tree.is_directory(inode) {
            OpenKind::Directory
        } else {
            OpenKind::File
        }
    }

    /// Whether what is there may be opened so. EEXIST; EISDIR; ENOTDIR; EOVERFLOW.
    #[tactic(auto, unfolding(crate::specs::Opening::admitted))]
    fn admitted(&self, flags: OpenFlags, inode: u64) -> Result<(), Errno>
        ensures { Tells result (admitted self.now flags inode) }
    {
        if flags.creates() && flags.is_exclusive() {
            return Err(Errno::Exists);
        }
        let is_directory = self.tree.is_directory(inode);
        if is_directory && (flags.asks_write() || flags.creates()) {
            return Err(Errno::IsDirectory);
        }
        if !is_directory && flags.wants_directory() {
            return Err(Errno::NotDirectory);
        }
        if !flags.is_large() && self.tree.size_of(inode) > MOST_NARROW {
            return Err(Errno::Overflow);
        }
        Ok(())
    }

    /// Takes the bytes of a file away, where O_TRUNC asks for it.
    fn truncate_opened(
        &mut self,
        alloc: Global,
        flags: OpenFlags,
        inode: u64,
    ) -> Result<(), OutOfMemory>
        ensures { OnOk result (self.new ≡ truncated self.old flags inode) }
    {
        if flags.truncates() && flags.asks_write() {
            return self.tree.empty(alloc, inode);
        }
        Ok(())
    }

    fn new_open_file(&self, flags: OpenFlags, inode: u64) -> OpenFile
        ensures { result ≡ new_open_file self.now flags inode }
    {
        OpenFile {
            inode,
            kind: self.kind_of(inode),
            flags: flags.status_flags(),
            position: 0,
        }
    }

    /// Makes a file and its name, and gives its inode.
    fn add_file(
        &mut self,
        alloc: Global,
        maker: &Maker,
        last: &Last<'_>,
        mode: u32,
    ) -> Result<u64, OutOfMemory>
        requires { is_full self.old.open_files.made ≡ false }
        ensures number { IfOk result (λ i. i ≡ next_inode self.old.tree) }
        ensures room { OnOk result (HasRoom self.new.open_files.made 1) }
        ensures after { OnOk result (self.new ≡ with_file self.old maker.now (last.now.place, last.now.name.now) mode) }
    {
        let inode = self.tree.add_file(alloc, maker, last, mode)?;
        self.open_files.count(2);
        Ok(inode)
    }

    /// open and openat: opens what a path names, or makes a file with O_CREAT, at the lowest free number below
    /// `limit`, the soft limit of descriptors. `from` is the descriptor of the directory where a path begins
    /// that has no slash at its front, or `AT_FDCWD`.
    ///
    /// EMFILE; ENFILE where fewer than four things are left to make; EINVAL for O_CREAT with O_DIRECTORY; what
    /// refuses the path (ENOENT, EBADF, ENOTDIR, ENAMETOOLONG); of a missing name ENOENT without O_CREAT, and
    /// EISDIR with a slash at the end; of one that is there EEXIST, EISDIR, ENOTDIR and EOVERFLOW.
    pub fn open_path(
        &mut self,
        alloc: Global,
        limit: u32,
        maker: &Maker,
        from: i64,
        path: &[u8],
        flags: OpenFlags,
        mode: u32,
    ) -> Answer<u32>
        ensures { Gives (λ n. n) result self.new (open_path self.old limit maker.now from path.now flags mode) }
    {
        let number = self.open_files.free_number(0, limit)?;
        if self.open_files.is_full() {
            return Err(KernelFault::Errno(Errno::TableFull));
        }
        if flags.creates() && flags.wants_directory() {
            return Err(KernelFault::Errno(Errno::InvalidArgument));
        }
        let last = self.resolve_parent(from, path)?;
        let entry = self.tree.last_entry(&last, path)?;
        match entry {
            Some(inode) => self.open_present(alloc, flags, number, inode),
            None => self.open_missing(alloc, maker, &last, path, flags, mode, number),
        }
    }

    #[tactic(auto, unfolding(crate::specs::Opening::opened_present))]
    fn open_present(
        &mut self,
        alloc: Global,
        flags: OpenFlags,
        number: u32,
        inode: u64,
    ) -> Answer<u32>
        requires { is_full self.old.open_files.made ≡ false }
        ensures { Gives (λ n. n) result self.new (settled self.old (opened_present self.old flags number inode)) }
    {
        self.admitted(flags, inode)?;
        self.truncate_opened(alloc, flags, inode)?;
        let file = self.new_open_file(flags, inode);
        self.open_files
            .put_open_file(number, file, flags.closes_on_exec())?;
        Ok(number)
    }

    #[tactic(auto, unfolding(crate::specs::Opening::opened_missing))]
    fn open_missing(
        &mut self,
        alloc: Global,
        maker: &Maker,
        last: &Last<'_>,
        path: &[u8],
        flags: OpenFlags,
        mode: u32,
        number: u32,
    ) -> Answer<u32>
        requires { is_full self.old.open_files.made ≡ false }
        ensures { Gives (λ n. n) result self.new (settled self.old (opened_missing self.old maker.now (last.now.place, last.now.name.now) path.now flags mode number)) }
    {
        if !flags.creates() {
            return Err(KernelFault::Errno(Errno::NoEntry));
        }
        if ends_with_slash(path) {
            return Err(KernelFault::Errno(Errno::IsDirectory));
        }
        let inode = self.add_file(alloc, maker, last, mode)?;
        let file = self.new_open_file(flags, inode);
        self.open_files
            .put_open_file(number, file, flags.closes_on_exec())?;
        Ok(number)
    }
}
