//! The state told item by item, in the order of a report.

ghost use Rattle.std.specs.Prelude.{◌≡◌, ◌+◌, ◌<◌, [], ◌∷◌, drop, IfOk, IfSome, MatchOption};
ghost use Rattle.kernel_values.specs.declared.items.StateItem.TheVariants as item;
ghost use Rattle.kernel_values.specs.Items.{TellsFirst};
ghost use Rattle.native_kernel.specs.Items.{TellsNext, is_starting, items, left, limit_items};

use crate::limits::starting_limit;
use crate::state::Kernel;
use file_store::FileCursor;
use kernel_values::{ClockItem, Limit, LimitItem, OutOfMemory, StateItem};
use signal_clock::SignalCursor;
use std::alloc::Global;

/// Where the telling of a state is: a part of it, and a place in that part.
#[derive(Clone, Copy, Debug)]
pub enum StateCursor {
    /// At the clocks, which are first.
    Clocks,
    /// At how the process ended.
    Ended,
    /// At the timer and signals, with all that `SignalCursor` tells.
    Signals(SignalCursor),
    /// At the limits from a number on.
    Limits(u32),
    /// At files, with all that `FileCursor` tells.
    Files(FileCursor),
}

/// Whether a limit is as at the start.
fn is_starting(resource: u32, limit: &Limit) -> bool
    ensures { result ≡ is_starting resource limit.now }
{
    let starting = starting_limit(resource);
    limit.soft == starting.soft && limit.hard == starting.hard
}

/// The first limit from a number on that isn't as at the start, and its number.
#[tactic(auto, using(crate::proofs::LimitItems::limit_end, crate::proofs::LimitItems::limit_here, crate::proofs::LimitItems::limit_next))]
fn changed_limit(held: &[Limit; 16], first: u32) -> Option<(u32, Limit)>
    ensures next { MatchOption result (limit_items first (drop first held.now) ≡ [])
        (λ l. limit_items first (drop first held.now) ≡ item.Limit (record { resource = l.0; limit = l.1 }) ∷ limit_items (l.0 + 1) (drop (l.0 + 1) held.now)) }
    ensures small { IfSome result (λ l. l.0 < 16) }
{
    for resource in first..16 {
        let limit = held[resource as usize];
        if !is_starting(resource, &limit) {
            return Some((resource, limit));
        }
    }
    None
}

/// An item, and the cursor at those behind it.
type Told = Option<(StateItem, StateCursor)>;

impl Kernel {
    /// Where the telling of the state begins: all items are left.
    #[tactic(auto, unfolding(crate::specs::Items::left))]
    pub fn first_item(&self) -> StateCursor
        ensures { left self.now result ≡ items self.now }
    {
        StateCursor::Clocks
    }

    #[tactic(auto, unfolding(crate::specs::Items::left))]
    fn file_item(&self, alloc: Global, cursor: FileCursor) -> Result<Told, OutOfMemory>
        ensures { IfOk result (λ told. TellsFirst (left self.now) (StateCursor.Files cursor) told) }
    {
        match self.files.item(alloc, cursor)? {
            Some((item, next)) => Ok(Some((item, StateCursor::Files(next)))),
            None => Ok(None),
        }
    }

    #[tactic(auto, unfolding(crate::specs::Items::left))]
    fn limit_item(&self, alloc: Global, first: u32) -> Result<Told, OutOfMemory>
        ensures { IfOk result (λ told. TellsFirst (left self.now) (StateCursor.Limits first) told) }
    {
        match changed_limit(&self.limits.held, first) {
            Some((resource, limit)) => {
                let item = StateItem::Limit(LimitItem { resource, limit });
                Ok(Some((item, StateCursor::Limits(resource + 1))))
            }
            None => self.file_item(alloc, self.files.first_item()),
        }
    }

    #[tactic(auto, unfolding(crate::specs::Items::left))]
    fn signal_item(&self, alloc: Global, cursor: SignalCursor) -> Result<Told, OutOfMemory>
        ensures { IfOk result (λ told. TellsFirst (left self.now) (StateCursor.Signals cursor) told) }
    {
        match self.signals.item(&self.clocks, cursor) {
            Some((item, next)) => Ok(Some((item, StateCursor::Signals(next)))),
            None => self.limit_item(alloc, 0),
        }
    }

    #[tactic(auto, unfolding(crate::specs::Items::left))]
    fn ended_item(&self, alloc: Global) -> Result<Told, OutOfMemory>
        ensures { IfOk result (λ told. TellsFirst (left self.now) StateCursor.Ended told) }
    {
        match self.ended {
            Some(end) => {
                let next = StateCursor::Signals(SignalCursor::Timer);
                Ok(Some((StateItem::Ended(end), next)))
            }
            None => self.signal_item(alloc, SignalCursor::Timer),
        }
    }

    #[tactic(auto, unfolding(crate::specs::Items::left, crate::specs::Items::items))]
    fn clock_item(&self) -> Told
        ensures { TellsFirst (left self.now) StateCursor.Clocks result }
    {
        let (real, monotonic) = (self.clocks.real(), self.clocks.monotonic());
        let item = StateItem::Clock(ClockItem { real, monotonic });
        Some((item, StateCursor::Ended))
    }

    fn item(&self, alloc: Global, cursor: StateCursor) -> Result<Told, OutOfMemory>
        ensures { IfOk result (λ told. TellsFirst (left self.now) cursor told) }
    {
        match cursor {
            StateCursor::Clocks => Ok(self.clock_item()),
            StateCursor::Ended => self.ended_item(alloc),
            StateCursor::Signals(cursor) => self.signal_item(alloc, cursor),
            StateCursor::Limits(first) => self.limit_item(alloc, first),
            StateCursor::Files(cursor) => self.file_item(alloc, cursor),
        }
    }

    /// The next item, and the cursor at those behind it. None exactly where no item is left. After want of memory the
    /// cursor is as before.
    pub fn next_item(
        &self,
        alloc: Global,
        cursor: &mut StateCursor,
    ) -> Result<Option<StateItem>, OutOfMemory>
        ensures { TellsNext self.now cursor.old result cursor.new }
    {
        let Some((item, next)) = self.item(alloc, *cursor)? else {
            return Ok(None);
        };
        *cursor = next;
        Ok(Some(item))
    }
}
