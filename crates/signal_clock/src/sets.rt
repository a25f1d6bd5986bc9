//! Sets of signals as words.

ghost use Rattle.std.specs.Prelude.{◌≡◌, ◌≤◌, false};
ghost use Rattle.signal_clock.specs.Held.{HasNeither, is_fixed};
ghost use Rattle.signal_clock.specs.Sets.{blockable, has, only};

/// Whether a set has a signal.
#[tactic(auto, using(crate::proofs::Shifts::past_bits, std::proofs::lemmas::Nat::Bits::shr_and_one))]
pub(crate) fn has(set: u64, signal: u32) -> bool
    ensures { result ≡ has set signal }
{
    let place = signal.saturating_sub(1);
    if place >= 64 {
        return false;
    }
    (set >> place) & 1 == 1
}

/// The set of one signal.
#[tactic(auto, using(crate::proofs::Shifts::one_shifted))]
pub(crate) fn only(signal: u32) -> u64
    requires low { 1 ≤ signal }
    requires high { signal ≤ 64 }
    ensures set { result ≡ only signal }
    ensures neither { is_fixed signal ≡ false → HasNeither result }
{
    1 << (signal - 1)
}

/// All signals but SIGKILL, 9, and SIGSTOP, 19.
const BLOCKABLE: u64 = 0xffff_ffff_fffb_feff;

/// A set without the signals that are never blocked.
pub(crate) fn blockable(set: u64) -> u64
    ensures set { result ≡ blockable set }
    ensures neither { HasNeither result }
{
    set & BLOCKABLE
}
