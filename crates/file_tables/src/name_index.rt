//! The positions of names.

ghost use Rattle.std.specs.Prelude.{◌≡◌, [], OnOk, OnErr};
ghost use Rattle.file_tables.specs.NameIndex.{AreAscending, position_of, with_position, without_position};

use kernel_values::OutOfMemory;
use std::alloc::Global;
use std::collections::BTreeMap;
use std::marker::Model;

/// The position of each name of a directory. A contract sees them by name, in lexicographic order.
#[derive(Debug, Drop)]
pub(crate) struct NameIndex {
    map: BTreeMap<Vec<u8>, u64>,
}

impl Model for NameIndex {
    ghost use Rattle.file_tables.specs.NameIndex.{Positions, by_name};

    ghost Value = { Positions };

    ghost view = { λ n. by_name (λ k. k.items) n.map.entries };
}

impl NameIndex {
    /// No names.
    pub(crate) fn new(alloc: Global) -> NameIndex
        ensures { result ≡ [] }
    {
        NameIndex {
            map: BTreeMap::new(alloc),
        }
    }

    /// The position of a name. One look-up.
    pub(crate) fn get(&self, name: &[u8]) -> Option<u64>
        ensures { result ≡ position_of self.now name.now }
    {
        self.map.get(name).copied()
    }

    /// Gives a name a position.
    pub(crate) fn put(&mut self, name: Vec<u8>, position: u64) -> Result<(), OutOfMemory>
        ensures ok { OnOk result (self.new ≡ with_position self.old name.items position) }
        ensures err { OnErr result (self.new ≡ self.old) }
        ensures ascending { AreAscending self.new }
    {
        match self.map.insert(name, position) {
            Ok(_) => Ok(()),
            Err(_) => Err(OutOfMemory),
        }
    }

    /// Takes a name out. It takes no memory.
    pub(crate) fn remove(&mut self, name: &[u8])
        ensures after { self.new ≡ without_position self.old name.now }
        ensures ascending { AreAscending self.new }
    {
        let _position = self.map.remove(name);
    }
}
