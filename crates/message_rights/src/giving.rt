//! Descriptors for the open files that come with what is received.

ghost use Rattle.std.specs.Prelude.{◌≡◌, ◌≤◌, length, IfOk, MatchOption, OnOk};
ghost use Rattle.message_rights.specs.Giving.{GivesNone, GivesOne, given};

use kernel_values::{FdList, OutOfMemory};
use open_files::{Descriptor, OpenFiles};
use std::alloc::Global;
use std::collections::LinkedList;

/// What became of open files that came with what was received.
#[derive(Debug, Drop)]
pub struct Given {
    /// The descriptors of those that got one, in order.
    pub numbers: FdList,
    /// The serial numbers of those that got none.
    pub dropped: LinkedList<u64>,
}

/// The first of some open files, and the number that it gets: none where there is no room to tell of one, no open file, or no free number.
#[tactic(auto, using(crate::proofs::Givings::no_room_at_all, crate::proofs::Givings::nothing_to_give, crate::proofs::Givings::none_free))]
fn next(
    open_files: &OpenFiles,
    limit: u32,
    room: u32,
    rights: &LinkedList<u64>,
) -> Option<(u64, u32)>
    ensures { MatchOption result (GivesNone room limit open_files.now rights.now) (λ n. GivesOne room limit open_files.now rights.now n) }
{
    if room == 0 {
        return None;
    }
    match rights.front() {
        Some(serial) => match open_files.free_number(0, limit) {
            Ok(number) => Some((*serial, number)),
            Err(_) => None,
        },
        None => None,
    }
}

/// Gives open files descriptors, each the lowest free number below `limit`, in order, as many as there is `room` to tell of. The others are dropped: the
/// caller lets them go. `cloexec` is the close-on-exec mark of all.
#[tactic(auto, using(crate::proofs::Givings::one_given))]
pub fn give(
    alloc: Global,
    open_files: &mut OpenFiles,
    limit: u32,
    room: u32,
    cloexec: bool,
    rights: LinkedList<u64>,
) -> Result<Given, OutOfMemory>
    ensures numbers { IfOk result (λ g. g.numbers ≡ (given room limit cloexec open_files.old rights).numbers) }
    ensures dropped { IfOk result (λ g. g.dropped ≡ (given room limit cloexec open_files.old rights).dropped) }
    ensures after { OnOk result (open_files.new ≡ (given room limit cloexec open_files.old rights).after) }
    ensures fewer { IfOk result (λ g. length g.dropped ≤ length rights) }
    ensures sockets { OnOk result (open_files.new.sockets ≡ open_files.old.sockets) }
{
    let mut numbers = FdList::new(alloc);
    let mut left = rights;
    let mut room = room;
    while let Some((serial, number)) = next(open_files, limit, room, &left) {
        open_files.set_descriptor(number, Descriptor { serial, cloexec })?;
        numbers.push(number)?;
        left.pop_front();
        room -= 1;
    }
    Ok(Given {
        numbers,
        dropped: left,
    })
}
