//! The signals that are blocked.

ghost use Rattle.std.specs.Prelude.{◌≡◌, ◌<◌, ◌^◌, true};
ghost use Rattle.kernel_values.specs.Outcome.{GivesAlways, Tells};
ghost use Rattle.signal_clock.specs.Masks.{change_mask, changed_mask, narrowed, pending, replaced, with_mask};

use crate::held::HeldMask;
use crate::state::Signals;
use kernel_values::{Answer, Errno, SignalSet};

/// A set has 32 bits below this where it is narrow, as that of the old calls.
const NARROW_END: u64 = 0x1_0000_0000;

/// A set, or its low 32 bits where it is narrow.
fn narrowed(set: u64, narrow: bool) -> u64
    ensures value { result ≡ narrowed set narrow }
    ensures small { narrow ≡ true → result < 2 ^ 32 }
{
    if narrow { set % NARROW_END } else { set }
}

/// A set in place of the mask; a narrow one leaves its high 32 bits.
fn replaced(old: u64, set: u64, narrow: bool) -> u64
    requires { narrow ≡ true → set < 2 ^ 32 }
    ensures { result ≡ replaced old set narrow }
{
    if narrow {
        old / NARROW_END * NARROW_END + set
    } else {
        set
    }
}

/// The mask that a change leaves: SIG_BLOCK 0, SIG_UNBLOCK 1, SIG_SETMASK 2. EINVAL for another.
fn changed_mask(old: u64, how: i64, set: u64, narrow: bool) -> Result<u64, Errno>
    requires { narrow ≡ true → set < 2 ^ 32 }
    ensures { Tells result (changed_mask old how set narrow) }
{
    match how {
        0 => Ok(old | set),
        1 => Ok(old & !set),
        2 => Ok(replaced(old, set, narrow)),
        _ => Err(Errno::InvalidArgument),
    }
}

impl Signals {
    /// Sets the mask. SIGKILL and SIGSTOP are never blocked.
    pub fn set_mask(&mut self, mask: SignalSet)
        ensures { self.new ≡ with_mask self.old mask.bits }
    {
        self.mask = HeldMask::of(mask.bits);
    }

    /// The mask, and how it is changed where a set is given. EINVAL for an unknown change.
    pub fn mask(&mut self, how: i64, set: Option<SignalSet>, narrow: bool) -> Answer<SignalSet>
        ensures { GivesAlways (λ m. m) result self.new (change_mask self.old how set narrow) }
    {
        let before = SignalSet {
            bits: self.mask.get(),
        };
        if let Some(set) = set {
            let set = narrowed(set.bits, narrow);
            let bits = changed_mask(before.bits, how, set, narrow)?;
            self.set_mask(SignalSet { bits });
        }
        Ok(before)
    }

    /// The signals that wait and are blocked.
    #[tactic(auto, unfolding(crate::specs::Masks::pending))]
    pub fn pending(&self) -> SignalSet
        ensures { result ≡ pending self.now }
    {
        SignalSet {
            bits: self.waiting.numbers() & self.mask.get(),
        }
    }
}
