//! The times that utimensat sets.

ghost use Rattle.std.specs.Prelude.{◌≡◌};
ghost use Rattle.file_tables.specs.Times.{are_bad_times, chosen, is_bad_choice, is_fraction, is_now, is_omitted, retimed, retimed_node};

use crate::state::Node;
use crate::table::Table;
use kernel_values::{Attributes, FileTimes, TimeSpec};

/// `UTIME_NOW` of `include/linux/stat.h`: the time of the call.
const UTIME_NOW: i64 = 0x3fff_ffff;
/// `UTIME_OMIT` of `include/linux/stat.h`: the time stays.
const UTIME_OMIT: i64 = 0x3fff_fffe;

fn is_now(nanos: i64) -> bool
    ensures { result ≡ is_now nanos }
{
    nanos == UTIME_NOW
}

fn is_omitted(nanos: i64) -> bool
    ensures { result ≡ is_omitted nanos }
{
    nanos == UTIME_OMIT
}

/// Whether these nanoseconds are a part of a second.
fn is_fraction(nanos: i64) -> bool
    ensures { result ≡ is_fraction nanos }
{
    0 <= nanos && nanos < 1_000_000_000
}

fn is_bad_choice(time: TimeSpec) -> bool
    ensures { result ≡ is_bad_choice time }
{
    !(is_now(time.nanos) || is_omitted(time.nanos) || is_fraction(time.nanos))
}

/// Whether nanoseconds of one of the times are neither a part of a second (0 to 999,999,999), nor `UTIME_NOW`, 0x3fffffff, nor
/// `UTIME_OMIT`, 0x3ffffffe. No times are good.
pub fn are_bad_times(times: Option<FileTimes>) -> bool
    ensures { result ≡ are_bad_times times }
{
    match times {
        Some(times) => is_bad_choice(times.accessed) || is_bad_choice(times.modified),
        None => false,
    }
}

/// Now, the time as it was, or the time given.
fn chosen(now: TimeSpec, old: TimeSpec, given: TimeSpec) -> TimeSpec
    ensures { result ≡ chosen now old given }
{
    if is_now(given.nanos) {
        now
    } else if is_omitted(given.nanos) {
        old
    } else {
        given
    }
}

fn retimed(now: TimeSpec, times: Option<FileTimes>, old: Attributes) -> Attributes
    ensures { result ≡ retimed now times old }
{
    match times {
        Some(times) => Attributes {
            accessed: chosen(now, old.accessed, times.accessed),
            modified: chosen(now, old.modified, times.modified),
            changed: now,
            ..old
        },
        None => Attributes {
            accessed: now,
            modified: now,
            changed: now,
            ..old
        },
    }
}

impl Table<Node> {
    /// Sets when a file or a directory was last read and when its bytes last changed, where it is there: to the times given, and to
    /// `now`, the real time, where none are. The time of the change is now in any case. It takes no memory.
    #[tactic(auto, unfolding(crate::specs::Times::retimed_node))]
    pub fn retime(&mut self, inode: u64, now: TimeSpec, times: Option<FileTimes>)
        ensures { self.new ≡ retimed_node self.old inode now times }
    {
        if let Some(node) = self.get(inode) {
            let node = Node {
                attributes: retimed(now, times, node.attributes),
                ..*node
            };
            self.change(inode, node);
        }
    }
}
