//! The words of a command line.

ghost use Rattle.std.specs.Prelude.{◌≡◌, ◌==◌, ◌<◌, [], ◌∷◌, ◌++◌, length, slice_get, Some, OnOk, OnErr};

use kernel_values::OutOfMemory;
use std::alloc::Global;
use std::marker::Model;

/// Words as bytes, in order. Contracts see a list of lists of bytes.
#[derive(Drop)]
pub struct Words {
    items: Vec<Vec<u8>>,
    alloc: Global,
}

impl Model for Words {
    ghost use Rattle.std.specs.Prelude.{List, ℕ, map};

    ghost Value = { List (List ℕ) };

    ghost view = { λ w. map (λ v. v.items) w.items.items };
}

impl Words {
    /// No words. It takes no memory.
    pub fn new(alloc: Global) -> Words
        ensures { result ≡ [] }
    {
        Words {
            items: Vec::new(alloc),
            alloc,
        }
    }

    /// Adds a word at the end; it may be empty. `OutOfMemory` where there is no memory for it, and the words are as
    /// before.
    pub fn push(&mut self, word: &[u8]) -> Result<(), OutOfMemory>
        ensures ok { OnOk result (self.new ≡ self.old ++ word.now ∷ []) }
        ensures err { OnErr result (self.new ≡ self.old) }
    {
        let own = Vec::from_slice(self.alloc, word)?;
        self.items.push(own)?;
        Ok(())
    }

    /// How many words there are.
    pub fn len(&self) -> usize
        ensures { result ≡ length self.now }
    {
        self.items.len()
    }

    /// There are no words.
    pub fn is_empty(&self) -> bool
        ensures { result ≡ (length self.now == 0) }
    {
        self.items.is_empty()
    }

    /// The bytes of the word at a place, from 0.
    pub fn word(&self, at: usize) -> &[u8]
        requires { at < length self.now }
        ensures { slice_get self.now at ≡ Some result.now }
    {
        &self.items[at]
    }
}

#[cfg(test)]
mod tests;
