//! Lists that values of the kernel hold.

ghost use Rattle.std.specs.Prelude.{◌≡◌, ◌<◌, [], ◌∷◌, ◌++◌, List, length, slice_get, Some, IfOk, OnOk, OnErr};
ghost use Rattle.std.specs.Borrow.{sem};

use crate::errno::OutOfMemory;
use std::alloc::Global;
use std::marker::Model;

/// A list of items, which grows at its end. A contract sees the list.
#[derive(Debug, Drop)]
pub struct ItemList<T> {
    items: Vec<T>,
}

impl<T> Model for ItemList<T> {
    ghost Value = { List T };

    ghost view = { λ l. l.items.items };
}

impl<T> ItemList<T> {
    ghost use Rattle.kernel_values.specs.Lends.{lends_item};

    /// No items.
    pub fn new(alloc: Global) -> ItemList<T>
        ensures { result ≡ [] }
    {
        ItemList {
            items: Vec::new(alloc),
        }
    }

    /// Puts an item behind the others. After want of memory the list is as before.
    pub fn push(&mut self, item: T) -> Result<(), OutOfMemory>
    where
        T: Drop,
        ensures ok { OnOk result (self.new ≡ self.old ++ item ∷ []) }
        ensures err { OnErr result (self.new ≡ self.old) }
    {
        match self.items.push(item) {
            Ok(()) => Ok(()),
            Err(_) => Err(OutOfMemory),
        }
    }

    /// The item at an index, to change in place. All other items stay.
    pub fn at_mut(&mut self, at: usize) -> &mut T
        requires { at < length self.old }
        ensures* writes_back { sem 𝓛 (lends_item T.row self.entry at result) }
        ensures value { slice_get self.old at ≡ Some result.now }
    {
        &mut self.items[at]
    }

    /// How many items.
    pub fn len(&self) -> usize
        ensures { result ≡ length self.now }
    {
        self.items.len()
    }

    /// The items, in order.
    pub fn as_slice(&self) -> &[T]
        ensures { result.now ≡ self.now }
    {
        &self.items
    }
}

/// A list of bytes.
pub type ByteList = ItemList<u8>;
/// The bytes of a name in a directory, at most 255.
pub type NameText = ItemList<u8>;
/// The bytes of a path.
pub type PathText = ItemList<u8>;
/// Numbers of descriptors.
pub type FdList = ItemList<u32>;
/// Serial numbers of open files.
pub type SerialList = ItemList<u64>;

impl ItemList<u8> {
    /// A copy of these bytes.
    pub fn from_slice(alloc: Global, bytes: &[u8]) -> Result<ItemList<u8>, OutOfMemory>
        ensures { IfOk result (λ l. l ≡ bytes.now) }
    {
        let mut items = Vec::new(alloc);
        match items.extend_from_slice(bytes) {
            Ok(()) => Ok(ItemList { items }),
            Err(_) => Err(OutOfMemory),
        }
    }

    /// The bytes of a vector.
    pub fn from_vec(items: Vec<u8>) -> ItemList<u8>
        ensures { result ≡ items.items }
    {
        ItemList { items }
    }
}
