//! The path of a directory.

ghost use Rattle.std.specs.Prelude.{◌≡◌, ℕ, ◌-◌, ◌+◌, ◌++◌, ◌∷◌, [], length, IfOk, OnOk, option_map};
ghost use Rattle.file_tables.specs.PathTexts.{name_in, path_text, short_text, text_up};

use crate::state::Directory;
use crate::table::Table;
use kernel_values::OutOfMemory;
use std::alloc::Global;

/// The inode number of the root.
pub const ROOT: u64 = 2;
/// `PATH_MAX` of `include/uapi/linux/limits.h`, less the zero at the end: the most bytes of a path.
const PATH_MAX: usize = 4095;

/// Puts bytes behind a text. On an Err nothing is said of the text.
pub fn append(text: &mut Vec<u8>, bytes: &[u8]) -> Result<(), OutOfMemory>
    ensures { OnOk result (text.new.items ≡ text.old.items ++ bytes.now) }
{
    match text.extend_from_slice(bytes) {
        Ok(()) => Ok(()),
        Err(_) => Err(OutOfMemory),
    }
}

/// The path whose names these are, each after a slash: of no names a slash.
pub fn path_text(text: Vec<u8>) -> Result<Vec<u8>, OutOfMemory>
    ensures { IfOk result (λ t. t.items ≡ path_text text.items) }
{
    let mut text = text;
    if text.is_empty() {
        append(&mut text, b"/")?;
    }
    Ok(text)
}

impl Table<Directory> {
    /// The name of an inode in a directory.
    #[tactic(auto, unfolding(crate::specs::PathTexts::name_in))]
    fn name_in(&self, place: u64, child: u64) -> &[u8]
        ensures { result.now ≡ name_in self.now place child }
    {
        match self.get(place) {
            Some(directory) => match directory.names.find_child(child) {
                Some(entry) => entry.name.as_slice(),
                None => &[],
            },
            None => &[],
        }
    }

    /// A text with a slash and a name in front.
    fn longer(
        &self,
        alloc: Global,
        place: u64,
        child: u64,
        text: &[u8],
    ) -> Result<Vec<u8>, OutOfMemory>
        ensures { IfOk result (λ v. v.items ≡ 47 ∷ (name_in self.now place child ++ text.now)) }
    {
        let mut whole = Vec::new(alloc);
        append(&mut whole, b"/")?;
        append(&mut whole, self.name_in(place, child))?;
        append(&mut whole, text)?;
        Ok(whole)
    }

    /// The names from the root to the directory `place`, each after a slash: no bytes for the root. None where they have more
    /// than 4,095 bytes, which ends the way up. One look-up for each directory on the way, and one pass over the names in it.
    #[tactic(auto, using(crate::proofs::Texts::text_end, crate::proofs::Texts::text_root, crate::proofs::Texts::text_next))]
    pub fn text_up(&self, alloc: Global, place: u64) -> Result<Option<Vec<u8>>, OutOfMemory>
        ensures { IfOk result (λ v. option_map (λ t. t.items) v ≡ short_text (text_up self.now place [] (length self.now))) }
    {
        let mut text = Vec::new(alloc);
        let mut above = place;
        for step in 0..self.len() {
            if above == ROOT {
                return Ok(Some(text));
            }
            let parent = self.parent_of(above);
            text = self.longer(alloc, parent, above, &text)?;
            if text.len() > PATH_MAX {
                return Ok(None);
            }
            above = parent;
        }
        Ok(Some(text))
    }
}
