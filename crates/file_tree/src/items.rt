//! The working directory, files, directories, their names and bytes, and locks told item by item, in the order of a report.

ghost use Rattle.std.specs.Prelude.{◌≡◌, ◌+◌, ◌<◌, ◌≤◌, ◌^◌, [], ◌∷◌, length, take, drop, IfOk, IfSome, MatchOption};
ghost use Rattle.kernel_values.specs.Items.{TellsFirst};
ghost use Rattle.number_maps.specs.NumberMap.{after, after_key};
ghost use Rattle.file_tree.specs.Lengths.{bytes_of};
ghost use Rattle.file_tree.specs.OwnLocks.{locks_on};
ghost use Rattle.file_tree.specs.Items.{names_in, tree_items, tree_left};

use crate::locks::is_of_writers;
use crate::state::FileTree;
use file_tables::{Entry, ROOT};
use kernel_values::{
    ByteList, BytesItem, LockItem, NameItem, NameText, NodeItem, OutOfMemory, StateItem,
    WorkingItem,
};
use record_locks::OwnLock;
use std::alloc::Global;

/// Where the telling of a tree is: a part of what is told, and the last of that part that was told.
#[derive(Clone, Copy, Debug)]
pub enum TreeCursor {
    /// At the working directory, which is first.
    Working,
    /// At files and directories whose inode number is greater than this one.
    Nodes(Option<u64>),
    /// At the names in a directory whose position is greater than this one.
    Names { directory: u64, last: Option<u64> },
    /// At the bytes of a file from an offset on.
    Bytes { inode: u64, offset: u64 },
    /// At the locks on a file, behind so many of them.
    Locks { inode: u64, count: usize },
}

/// An item, and the cursor at those behind it.
type Told = Option<(StateItem, TreeCursor)>;

impl FileTree {
    /// Where the telling of a tree begins: all items are left.
    pub fn first_item(&self) -> TreeCursor
        ensures { tree_left self.now result ≡ tree_items self.now }
    {
        TreeCursor::Working
    }

    #[tactic(auto, unfolding(crate::specs::Items::tree_left, crate::specs::Items::node_items))]
    fn node_item(&self, last: Option<u64>) -> Told
        ensures { TellsFirst (tree_left self.now) (TreeCursor.Nodes last) result }
    {
        match self.nodes.after(last) {
            Some((inode, node)) => {
                let item = StateItem::Node(NodeItem {
                    inode,
                    is_directory: self.is_directory(inode),
                    size: self.size_of(inode),
                    attributes: node.attributes,
                });
                let (directory, last) = (inode, None);
                Some((item, TreeCursor::Names { directory, last }))
            }
            None => None,
        }
    }

    /// The lock on a file behind so many of the first ones.
    fn lock_after(&self, inode: u64, count: usize) -> Option<OwnLock>
        ensures next { MatchOption result (drop count (locks_on self.now.own_locks inode) ≡ [])
            (λ l. drop count (locks_on self.now.own_locks inode) ≡ l ∷ drop (count + 1) (locks_on self.now.own_locks inode)) }
        ensures few { IfSome result (λ l. count + 1 < 2 ^ 64) }
    {
        let locks = self.own_locks.get(inode)?.as_slice();
        if count < locks.len() {
            Some(locks[count])
        } else {
            None
        }
    }

    #[tactic(auto, unfolding(crate::specs::Items::tree_left))]
    fn lock_item(&self, inode: u64, count: usize) -> Told
        ensures { TellsFirst (tree_left self.now) (TreeCursor.Locks inode count) result }
    {
        match self.lock_after(inode, count) {
            Some(lock) => {
                let item = StateItem::Lock(LockItem {
                    inode,
                    write: is_of_writers(lock.kind),
                    first: lock.first,
                    last: lock.last,
                });
                let count = count + 1;
                Some((item, TreeCursor::Locks { inode, count }))
            }
            None => self.node_item(Some(inode)),
        }
    }

    /// The bytes of a file, so many of them from an offset on.
    fn bytes_of(
        &self,
        alloc: Global,
        inode: u64,
        offset: u64,
        count: u64,
    ) -> Result<ByteList, OutOfMemory>
        requires { offset + count ≤ length (bytes_of self.now inode) }
        ensures { IfOk result (λ bytes. bytes ≡ take count (drop offset (bytes_of self.now inode))) }
    {
        let mut bytes = Vec::new(alloc);
        self.read(inode, offset, count, &mut bytes)?;
        Ok(ByteList::from_vec(bytes))
    }

    #[tactic(auto, unfolding(crate::specs::Items::tree_left))]
    fn bytes_item(&self, alloc: Global, inode: u64, offset: u64) -> Result<Told, OutOfMemory>
        ensures { IfOk result (λ told. TellsFirst (tree_left self.now) (TreeCursor.Bytes inode offset) told) }
    {
        let Some(run) = self.contents.next_run(inode, offset) else {
            return Ok(self.lock_item(inode, 0));
        };
        let bytes = self.bytes_of(alloc, inode, run.at, run.length)?;
        let item = StateItem::Bytes(BytesItem {
            inode,
            offset: run.at,
            bytes,
        });
        let offset = run.at + run.length;
        Ok(Some((item, TreeCursor::Bytes { inode, offset })))
    }

    /// The first name in a directory after a position.
    #[tactic(auto, using(number_maps::proofs::Steps::nothing_after))]
    fn name_after(&self, directory: u64, last: Option<u64>) -> Option<(u64, &Entry)>
        ensures { MatchOption result (after (names_in self.now directory) last ≡ [])
            (λ e. after (names_in self.now directory) last ≡ (e.0, e.1.now) ∷ after_key (names_in self.now directory) e.0) }
    {
        match self.directories.get(directory) {
            Some(directory) => directory.names.after(last),
            None => None,
        }
    }

    #[tactic(auto, unfolding(crate::specs::Items::tree_left))]
    fn name_item(
        &self,
        alloc: Global,
        directory: u64,
        last: Option<u64>,
    ) -> Result<Told, OutOfMemory>
        ensures { IfOk result (λ told. TellsFirst (tree_left self.now) (TreeCursor.Names directory last) told) }
    {
        let Some((position, entry)) = self.name_after(directory, last) else {
            return self.bytes_item(alloc, directory, 0);
        };
        let item = StateItem::Name(NameItem {
            directory,
            position,
            child: entry.child,
            name: NameText::from_slice(alloc, entry.name.as_slice())?,
        });
        let last = Some(position);
        Ok(Some((item, TreeCursor::Names { directory, last })))
    }

    #[tactic(auto, unfolding(crate::specs::Items::tree_left))]
    fn working_item(&self) -> Told
        ensures { TellsFirst (tree_left self.now) TreeCursor.Working result }
    {
        if self.working == ROOT {
            return self.node_item(None);
        }
        let inode = self.working;
        let item = StateItem::Working(WorkingItem { inode });
        Some((item, TreeCursor::Nodes(None)))
    }

    /// The first of the items that are left at a cursor, and the cursor at those behind it. None exactly where no item is left.
    pub fn item(&self, alloc: Global, cursor: TreeCursor) -> Result<Told, OutOfMemory>
        ensures { IfOk result (λ told. TellsFirst (tree_left self.now) cursor told) }
    {
        match cursor {
            TreeCursor::Working => Ok(self.working_item()),
            TreeCursor::Nodes(last) => Ok(self.node_item(last)),
            TreeCursor::Names { directory, last } => self.name_item(alloc, directory, last),
            TreeCursor::Bytes { inode, offset } => self.bytes_item(alloc, inode, offset),
            TreeCursor::Locks { inode, count } => Ok(self.lock_item(inode, count)),
        }
    }
}
