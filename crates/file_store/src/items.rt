//! The tree and what is open told item by item, in the order of a report.

ghost use Rattle.std.specs.Prelude.{◌≡◌, IfOk};
ghost use Rattle.kernel_values.specs.Items.{TellsFirst};
ghost use Rattle.file_store.specs.Items.{file_items, files_left};

use crate::state::Files;
use file_tree::TreeCursor;
use kernel_values::{OutOfMemory, StateItem};
use open_files::OpenCursor;
use std::alloc::Global;

/// Where the telling of files is: a room, and the place in it.
#[derive(Clone, Copy, Debug)]
pub enum FileCursor {
    /// In the tree, which is told first.
    Tree(TreeCursor),
    /// At what is open.
    Open(OpenCursor),
}

/// An item, and the cursor at those behind it.
type Told = Option<(StateItem, FileCursor)>;

impl Files {
    /// Where the telling of files begins: all items are left.
    #[tactic(auto, unfolding(crate::specs::Items::files_left))]
    pub fn first_item(&self) -> FileCursor
        ensures { files_left self.now result ≡ file_items self.now }
    {
        FileCursor::Tree(self.tree.first_item())
    }

    #[tactic(auto, unfolding(crate::specs::Items::files_left))]
    fn open_item(&self, alloc: Global, cursor: OpenCursor) -> Result<Told, OutOfMemory>
        ensures { IfOk result (λ told. TellsFirst (files_left self.now) (FileCursor.Open cursor) told) }
    {
        match self.open_files.item(alloc, cursor)? {
            Some((item, next)) => Ok(Some((item, FileCursor::Open(next)))),
            None => Ok(None),
        }
    }

    #[tactic(auto, unfolding(crate::specs::Items::files_left))]
    fn tree_item(&self, alloc: Global, cursor: TreeCursor) -> Result<Told, OutOfMemory>
        ensures { IfOk result (λ told. TellsFirst (files_left self.now) (FileCursor.Tree cursor) told) }
    {
        match self.tree.item(alloc, cursor)? {
            Some((item, next)) => Ok(Some((item, FileCursor::Tree(next)))),
            None => self.open_item(alloc, self.open_files.first_item()),
        }
    }

    /// The first of the items that are left at a cursor, and the cursor at those behind it. None exactly where no item is left.
    pub fn item(&self, alloc: Global, cursor: FileCursor) -> Result<Told, OutOfMemory>
        ensures { IfOk result (λ told. TellsFirst (files_left self.now) cursor told) }
    {
        match cursor {
            FileCursor::Tree(cursor) => self.tree_item(alloc, cursor),
            FileCursor::Open(cursor) => self.open_item(alloc, cursor),
        }
    }
}
