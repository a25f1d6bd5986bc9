//! The lines of a directory, one by one.

ghost use Rattle.std.specs.Prelude.{◌≡◌, ◌<◌, ◌∷◌, [], map, IfOk, IfSome, MatchOption};
ghost use Rattle.file_tables.specs.Listing.{entry_kind, line_of, lines, told};
ghost use Rattle.number_maps.specs.NumberMap.{after_key};

use crate::name_table::NameTable;
use crate::state::Directory;
use crate::table::Table;
use kernel_values::{DirEntry, NameText, OutOfMemory};
use std::alloc::Global;

/// `DT_DIR` of `include/linux/fs_types.h`.
const KIND_DIRECTORY: u8 = 4;
/// `DT_REG` of the same header.
const KIND_FILE: u8 = 8;

/// A line of a listing.
#[derive(Clone, Copy, Debug)]
pub struct Line<'a> {
    /// Where it stands.
    pub position: u64,
    pub name: &'a [u8],
    /// What the name means.
    pub inode: u64,
}

impl NameTable {
    /// The line of the first entry at a greater position.
    fn line_after(&self, position: u64) -> Option<Line<'_>>
        ensures line { MatchOption result (map line_of (after_key self.now position) ≡ [])
            (λ l. map line_of (after_key self.now position) ≡ (l.position, (l.name.now, l.inode)) ∷ map line_of (after_key self.now l.position)) }
        ensures behind { IfSome result (λ l. position < l.position) }
    {
        let (position, entry) = self.after(Some(position))?;
        Some(Line {
            position,
            name: entry.name.as_slice(),
            inode: entry.child,
        })
    }
}

impl Directory {
    /// The first line at a greater position, of the directory that is inode `here`: `.` stands at 1, `..` at 2, and the names
    /// behind them. None where no line has a greater position. One look-up.
    #[tactic(auto, using(crate::proofs::Lines::lines_from, crate::proofs::Lines::after_dot, crate::proofs::Lines::after_dot_dot), unfolding(crate::specs::Listing::lines))]
    pub fn line_after(&self, here: u64, position: u64) -> Option<Line<'_>>
        ensures line { MatchOption result (after_key (lines self.now here) position ≡ [])
            (λ l. after_key (lines self.now here) position ≡ (l.position, (l.name.now, l.inode)) ∷ after_key (lines self.now here) l.position) }
        ensures behind { IfSome result (λ l. position < l.position) }
    {
        if position < 1 {
            return Some(Line {
                position: 1,
                name: b".",
                inode: here,
            });
        }
        if position < 2 {
            return Some(Line {
                position: 2,
                name: b"..",
                inode: self.parent,
            });
        }
        self.names.line_after(position)
    }
}

impl Table<Directory> {
    /// The kind that a listing tells of an inode.
    fn entry_kind(&self, inode: u64) -> u8
        ensures { result ≡ entry_kind self.now inode }
    {
        if self.has(inode) {
            KIND_DIRECTORY
        } else {
            KIND_FILE
        }
    }

    /// A line as it is told, with the kind of its inode.
    pub fn told(&self, alloc: Global, line: Line<'_>) -> Result<DirEntry, OutOfMemory>
        ensures { IfOk result (λ e. e ≡ told self.now (line.entry.position, (line.entry.name.now, line.entry.inode))) }
    {
        Ok(DirEntry {
            inode: line.inode,
            position: line.position,
            kind: self.entry_kind(line.inode),
            name: NameText::from_slice(alloc, line.name)?,
        })
    }
}
