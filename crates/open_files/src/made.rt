//! The count of the things that were made.

ghost use Rattle.std.specs.Prelude.{◌≡◌, ◌+◌, ◌<◌, ◌≤◌, ◌^◌};
ghost use Rattle.open_files.specs.Made.{HasRoom, MadeState, is_full, more_made, one_opened};

use std::marker::Model;

/// How many things may be made, less the four that are left where none is made any more.
const MOST_MADE: u64 = 0x7fff_fffb;

/// The count of inodes, names and open files made, which never falls and stays below 2^31, and the last serial
/// number given.
#[derive(Debug, Drop)]
pub struct Made {
    things: u64,
    last_serial: u64,
}

impl Model for Made {
    ghost Value = { MadeState };

    ghost view = { λ m. record { things = m.things; last_serial = m.last_serial } };

    ghost invariant = { λ m. (m.things < 2 ^ 31) × (m.last_serial ≤ m.things) };
}

impl Made {
    /// Nothing was made.
    pub fn new() -> Made
        ensures { result ≡ record { things = 0; last_serial = 0 } }
    {
        Made {
            things: 0,
            last_serial: 0,
        }
    }

    /// Whether fewer than four things are left to make.
    pub fn is_full(&self) -> bool
        ensures { result ≡ is_full self.now }
    {
        self.things > MOST_MADE
    }

    /// The last serial number given.
    pub fn last_serial(&self) -> u64
        ensures serial { result ≡ self.now.last_serial }
        ensures limit { result < 2 ^ 31 }
    {
        let _things = self.things;
        self.last_serial
    }

    /// Counts an open file, and gives its serial number.
    pub fn open_one(&mut self) -> u64
        requires { HasRoom self.old 1 }
        ensures serial { result ≡ self.old.last_serial + 1 }
        ensures counted { self.new ≡ one_opened self.old }
    {
        self.things += 1;
        self.last_serial += 1;
        self.last_serial
    }

    /// Counts things that were made.
    pub fn count(&mut self, things: u64)
        requires { HasRoom self.old things }
        ensures { self.new ≡ more_made self.old things }
    {
        self.things += things;
    }
}
