//! What a file and a directory have in common.

ghost use Rattle.std.specs.Prelude.{◌≡◌, ℕ, false};
ghost use Rattle.number_maps.specs.NumberMap.{at};
ghost use Rattle.file_tables.specs.Nodes.{nameless, stays_as, touched};

use crate::state::Node;
use crate::table::Table;
use kernel_values::{Attributes, TimeSpec};

impl Table<Node> {
    /// Sets when the bytes of an inode last changed, and when it did itself, to `now`, where it is there. It takes no memory.
    #[tactic(auto, unfolding(crate::specs::Nodes::touched))]
    pub fn touch(&mut self, inode: u64, now: TimeSpec)
        ensures { self.new ≡ touched self.old inode now }
    {
        if let Some(node) = self.get(inode) {
            let attributes = Attributes {
                modified: now,
                changed: now,
                ..node.attributes
            };
            let node = Node {
                attributes,
                ..*node
            };
            self.change(inode, node);
        }
    }

    /// Marks an inode as one without a name, where it is there. It takes no memory.
    #[tactic(auto, unfolding(crate::specs::Nodes::nameless))]
    pub fn forget_name(&mut self, inode: u64)
        ensures { self.new ≡ nameless self.old inode }
    {
        if let Some(node) = self.get(inode) {
            let node = Node {
                has_name: false,
                ..*node
            };
            self.change(inode, node);
        }
    }

    /// Whether an inode stays when no open file holds it: a directory has a name of it, or it isn't there.
    pub fn stays(&self, inode: u64) -> bool
        ensures { result ≡ stays_as (at self.now inode) }
    {
        match self.get(inode) {
            Some(node) => node.has_name,
            None => true,
        }
    }
}
