//! The names of a directory.

ghost use Rattle.std.specs.Prelude.{◌≡◌, ℕ, List, [], ◌∷◌, length, OnOk, None, Some, MatchOption, option_copied, option_map};
ghost use Rattle.number_maps.specs.NumberMap.{IsAscending, after, after_key, at, put, removed};
ghost use Rattle.file_tables.specs.Entries.{entry_for, named};
ghost use Rattle.file_tables.specs.declared.state.Entry.{Entry};
ghost use Rattle.file_tables.specs.NameTable.{without_name};

use crate::name_index::NameIndex;
use crate::state::Entry;
use crate::table::Table;
use kernel_values::{NameText, OutOfMemory};
use std::alloc::Global;
use std::marker::Model;

/// The entries of a directory by position, in which each name stands once. A contract sees them by ascending position.
#[derive(Debug, Drop)]
pub struct NameTable {
    alloc: Global,
    entries: Table<Entry>,
    /// The position of each name, so that a look-up by name goes over no names.
    positions: NameIndex,
}

impl Model for NameTable {
    ghost use Rattle.std.specs.Prelude.{ℕ, List};
    ghost use Rattle.file_tables.specs.declared.state.Entry.{Entry};
    ghost use Rattle.file_tables.specs.NameTable.{IsIndexed};

    ghost Value = { List (ℕ × Entry) };

    ghost view = { λ n. n.entries };

    ghost invariant = { λ n. IsIndexed n.entries n.positions };
}

impl NameTable {
    /// No names. It takes no memory yet.
    #[tactic(auto, using(crate::proofs::NameSteps::nothing_indexed))]
    pub fn new(alloc: Global) -> NameTable
        ensures { result ≡ [] }
    {
        NameTable {
            alloc,
            entries: Table::new(alloc),
            positions: NameIndex::new(alloc),
        }
    }

    /// How many names.
    pub fn len(&self) -> usize
        ensures { result ≡ length self.now }
    {
        self.entries.len()
    }

    /// The entry after the last position told, by ascending position, and the first where none was told. One look-up.
    pub fn after(&self, position: Option<u64>) -> Option<(u64, &Entry)>
        ensures ascending { IsAscending self.now }
        ensures entry { MatchOption result (after self.now position ≡ []) (λ e. after self.now position ≡ (e.0, e.1.now) ∷ after_key self.now e.0) }
    {
        self.entries.after(position)
    }

    /// The position of the entry with a name, and what it means. Two look-ups.
    #[tactic(auto, using(crate::proofs::NameSteps::named_nowhere, crate::proofs::NameSteps::named_there))]
    pub fn find_name(&self, name: &[u8]) -> Option<(u64, u64)>
        ensures { result ≡ option_map (λ (e : ℕ × Entry). (e.0, e.1.child)) (named self.now name.now) }
    {
        let position = self.positions.get(name)?;
        let entry = self.entries.get(position)?;
        Some((position, entry.child))
    }

    /// The first entry that means an inode. It goes over the entries before it.
    pub fn find_child(&self, child: u64) -> Option<&Entry>
        ensures { option_copied result ≡ entry_for self.now child }
    {
        self.entries.find_child(child)
    }

    /// Takes the entry at a position out, where there is one.
    fn vacate(&mut self, position: u64)
        ensures gone { self.new ≡ removed self.old position }
        ensures vacant { at self.new position ≡ None }
        ensures once { (name : List ℕ) → option_map (λ (e : ℕ × Entry). e.0) (named self.old name) ≡ Some position → named self.new name ≡ None }
        ensures ascending { IsAscending self.old }
    {
        if let Some(entry) = self.entries.remove(position) {
            self.positions.remove(entry.name.as_slice());
        }
    }

    /// Takes a name out, where it is there. It takes no memory.
    pub fn remove(&mut self, name: &[u8])
        ensures gone { self.new ≡ without_name self.old name.now }
        ensures missing { named self.new name.now ≡ None }
    {
        if let Some((position, _)) = self.find_name(name) {
            self.vacate(position);
        }
    }

    /// Puts a name that isn't there at a position where nothing stands.
    fn add(&mut self, position: u64, name: NameText, child: u64) -> Result<(), OutOfMemory>
        requires missing { named self.old name ≡ None }
        requires vacant { at self.old position ≡ None }
        ensures { OnOk result (self.new ≡ put self.old position (record { name = name; child = child })) }
    {
        let key = Vec::from_slice(self.alloc, name.as_slice())?;
        self.entries.put(position, Entry { name, child })?;
        match self.positions.put(key, position) {
            Ok(()) => Ok(()),
            Err(_) => {
                self.entries.discard(position);
                Err(OutOfMemory)
            }
        }
    }

    /// Puts a name at a position, in place of what stood there. A name stands once, so an entry that has it is taken out first.
    /// On an Err nothing is said of the entries.
    #[tactic(auto, using(crate::proofs::NameSteps::still_nowhere, crate::proofs::NameSteps::put_in_place))]
    pub fn put(&mut self, position: u64, name: NameText, child: u64) -> Result<(), OutOfMemory>
        ensures { OnOk result (self.new ≡ put (without_name self.old name) position (record { name = name; child = child })) }
    {
        self.remove(name.as_slice());
        self.vacate(position);
        self.add(position, name, child)
    }
}
