//! The timer and signals told item by item, in the order of a report.

ghost use Rattle.std.specs.Prelude.{◌≡◌, ◌+◌, ◌<◌, [], ◌∷◌, drop, length, map, IfSome, MatchOption};
ghost use Rattle.kernel_values.specs.declared.items.StateItem.TheVariants as item;
ghost use Rattle.kernel_values.specs.Items.{TellsFirst};
ghost use Rattle.signal_clock.specs.Items.{action_items, pending_item, signals_left};

use crate::state::{Clocks, Signals};
use kernel_values::{Action, ActionItem, SigInfo, SignalSet, StateItem, TimerItem};

/// Where the telling is: a part, and a place in that part.
#[derive(Clone, Copy, Debug)]
pub enum SignalCursor {
    /// At the timer, which is first.
    Timer,
    Mask,
    /// At the alternate stack.
    Stack,
    /// At the actions from a place on.
    Actions(u32),
    /// At the signals that wait from a place on.
    Pending(usize),
}

/// The first action from a place on that isn't the default, and its place.
#[tactic(auto, using(crate::proofs::ActionItems::action_end, crate::proofs::ActionItems::action_here, crate::proofs::ActionItems::action_next))]
fn set_action_from(actions: &[Action; 64], first: u32) -> Option<(u32, Action)>
    ensures next { MatchOption result (action_items first (drop first actions.now) ≡ [])
        (λ a. action_items first (drop first actions.now) ≡ item.Action (record { signal = a.0 + 1; action = a.1 }) ∷ action_items (a.0 + 1) (drop (a.0 + 1) actions.now)) }
    ensures small { IfSome result (λ a. a.0 < 64) }
{
    for place in first..64 {
        let action = actions[place as usize];
        if action.handler != 0 {
            return Some((place, action));
        }
    }
    None
}

/// The signal that waits at a place.
#[tactic(auto, using(crate::proofs::ActionItems::pending_end, crate::proofs::ActionItems::pending_here))]
fn pending_from(waiting: &[SigInfo], place: usize) -> Option<SigInfo>
    ensures next { MatchOption result (map pending_item (drop place waiting.now) ≡ [])
        (λ w. map pending_item (drop place waiting.now) ≡ item.Pending w ∷ map pending_item (drop (place + 1) waiting.now)) }
    ensures small { IfSome result (λ _. place < length waiting.now) }
{
    if place < waiting.len() {
        Some(waiting[place])
    } else {
        None
    }
}

/// An item, and the cursor at those behind it.
type Told = Option<(StateItem, SignalCursor)>;

impl Signals {
    #[tactic(auto, unfolding(crate::specs::Items::signals_left))]
    fn pending_told(&self, clocks: &Clocks, place: usize) -> Told
        ensures { TellsFirst (signals_left clocks.now self.now) (SignalCursor.Pending place) result }
    {
        let info = pending_from(self.waiting.as_slice(), place)?;
        Some((StateItem::Pending(info), SignalCursor::Pending(place + 1)))
    }

    #[tactic(auto, unfolding(crate::specs::Items::signals_left))]
    fn action_told(&self, clocks: &Clocks, first: u32) -> Told
        ensures { TellsFirst (signals_left clocks.now self.now) (SignalCursor.Actions first) result }
    {
        match set_action_from(self.actions.all(), first) {
            Some((place, action)) => {
                let signal = place + 1;
                let item = StateItem::Action(ActionItem { signal, action });
                Some((item, SignalCursor::Actions(signal)))
            }
            None => self.pending_told(clocks, 0),
        }
    }

    #[tactic(auto, unfolding(crate::specs::Items::signals_left))]
    fn stack_told(&self, clocks: &Clocks) -> Told
        ensures { TellsFirst (signals_left clocks.now self.now) SignalCursor.Stack result }
    {
        let stack = self.alt.get();
        if stack.size == 0 {
            return self.action_told(clocks, 0);
        }
        Some((StateItem::AltStack(stack), SignalCursor::Actions(0)))
    }

    #[tactic(auto, unfolding(crate::specs::Items::signals_left))]
    fn mask_told(&self, clocks: &Clocks) -> Told
        ensures { TellsFirst (signals_left clocks.now self.now) SignalCursor.Mask result }
    {
        let bits = self.mask.get();
        if bits == 0 {
            return self.stack_told(clocks);
        }
        Some((StateItem::Mask(SignalSet { bits }), SignalCursor::Stack))
    }

    #[tactic(auto, unfolding(crate::specs::Items::signals_left))]
    fn timer_told(&self, clocks: &Clocks) -> Told
        ensures { TellsFirst (signals_left clocks.now self.now) SignalCursor.Timer result }
    {
        match clocks.timer {
            Some(timer) => {
                let item = StateItem::Timer(TimerItem {
                    end: timer.end,
                    interval: timer.interval,
                });
                Some((item, SignalCursor::Mask))
            }
            None => self.mask_told(clocks),
        }
    }

    /// The first item left at a cursor, and the cursor at those behind it. None exactly where none is left.
    pub fn item(&self, clocks: &Clocks, cursor: SignalCursor) -> Told
        ensures { TellsFirst (signals_left clocks.now self.now) cursor result }
    {
        match cursor {
            SignalCursor::Timer => self.timer_told(clocks),
            SignalCursor::Mask => self.mask_told(clocks),
            SignalCursor::Stack => self.stack_told(clocks),
            SignalCursor::Actions(first) => self.action_told(clocks, first),
            SignalCursor::Pending(place) => self.pending_told(clocks, place),
        }
    }
}
