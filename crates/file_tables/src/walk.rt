//! The steps of a path from directory to directory.

ghost use Rattle.std.specs.Prelude.{◌≡◌, ◌<◌, ◌≤◌, ℕ, Bool, [], false, length, Option, None, Some, IsSome, IfOk, IfNone};
ghost use Rattle.kernel_values.specs.Outcome.{Tells, TellsAs};
ghost use Rattle.number_maps.specs.NumberMap.{at};
ghost use Rattle.file_tables.specs.Names.{names_of};
ghost use Rattle.file_tables.specs.Directories.{child_of, entry_at, is_dot, is_dot_dot, last_entry, parent_of, step, walk};

use crate::names::{ends_with_slash, next_name};
use crate::state::{Directory, Last};
use crate::table::Table;
use kernel_values::Errno;

/// `NAME_MAX` of `include/uapi/linux/limits.h`: the most bytes of a name.
const NAME_MAX: usize = 255;
/// The byte `.`.
const DOT: u8 = 46;

/// Whether a name is `.`.
pub fn is_dot(name: &[u8]) -> bool
    ensures { result ≡ is_dot name.now }
{
    match name {
        [DOT] => true,
        _ => false,
    }
}

/// Whether a name is `..`.
pub fn is_dot_dot(name: &[u8]) -> bool
    ensures { result ≡ is_dot_dot name.now }
{
    match name {
        [DOT, DOT] => true,
        _ => false,
    }
}

#[tactic(auto, unfolding(crate::specs::Directories::child_of))]
fn child_of(directory: &Directory, place: u64, name: &[u8]) -> Option<u64>
    ensures { result ≡ child_of directory.now place name.now }
{
    if is_dot(name) {
        return Some(place);
    }
    if is_dot_dot(name) {
        return Some(directory.parent);
    }
    match directory.names.find_name(name) {
        Some((_, child)) => Some(child),
        None => None,
    }
}

impl Table<Directory> {
    /// The directory that a directory lies in.
    #[tactic(auto, unfolding(crate::specs::Directories::parent_of))]
    pub fn parent_of(&self, place: u64) -> u64
        ensures { result ≡ parent_of self.now place }
    {
        match self.get(place) {
            Some(directory) => directory.parent,
            None => place,
        }
    }

    /// What a name means in a place, if it is there; no name means the place. ENAMETOOLONG; ENOTDIR.
    #[tactic(auto, unfolding(crate::specs::Directories::entry_at))]
    pub fn entry_at(&self, place: u64, name: &[u8]) -> Result<Option<u64>, Errno>
        ensures told { Tells result (entry_at self.now place name.now) }
        ensures there { IfOk result (λ n. IfNone n (IsSome (at self.now place))) }
    {
        if name.is_empty() {
            return Ok(Some(place));
        }
        if name.len() > NAME_MAX {
            return Err(Errno::NameTooLong);
        }
        let Some(directory) = self.get(place) else {
            return Err(Errno::NotDirectory);
        };
        Ok(child_of(directory, place, name))
    }

    /// One step of a path. ENAMETOOLONG; ENOTDIR; ENOENT.
    #[tactic(auto, unfolding(crate::specs::Directories::step))]
    fn step(&self, place: u64, name: &[u8]) -> Result<u64, Errno>
        ensures { Tells result (step self.now place name.now) }
    {
        let entry = self.entry_at(place, name)?;
        entry.ok_or(Errno::NoEntry)
    }

    /// The steps of all names of a path but the last, and that name: no bytes where there is none.
    /// ENAMETOOLONG; ENOTDIR; ENOENT.
    #[tactic(auto, unfolding(crate::specs::Directories::walk))]
    pub fn walk<'a>(&self, start: u64, path: &'a [u8]) -> Result<Last<'a>, Errno>
        ensures { TellsAs (λ l. (l.place, l.name.now)) result (walk self.now start [] (names_of path.now)) }
    {
        let mut place = start;
        let mut name = &path[..0];
        let mut rest = path;
        while let Some((next, after)) = next_name(rest) {
            place = self.step(place, name)?;
            name = next;
            rest = after;
        }
        Ok(Last { place, name })
    }

    /// What the last name of a path means, if it is there. ENAMETOOLONG; ENOTDIR, also for what is no directory with a
    /// slash at the end of the path.
    #[tactic(auto, unfolding(crate::specs::Directories::last_entry))]
    pub fn last_entry(&self, last: &Last<'_>, path: &[u8]) -> Result<Option<u64>, Errno>
        ensures told { Tells result (last_entry self.now (last.now.place, last.now.name.now) path.now) }
        ensures there { IfOk result (λ n. IfNone n (IsSome (at self.now last.now.place))) }
    {
        let entry = self.entry_at(last.place, last.name)?;
        if let Some(inode) = entry {
            if ends_with_slash(path) && !self.has(inode) {
                return Err(Errno::NotDirectory);
            }
        }
        Ok(entry)
    }
}
