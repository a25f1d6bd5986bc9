//! The values that a call of the kernel takes and gives, and the form of an operation's contract.
#![tactic(auto)]

mod abi;
mod bounds;
mod errno;
mod identity;
mod items;
mod listing;
mod lists;
mod locks;
mod open_flags;
mod process_end;
mod rules;
mod signals;
mod sockets;
mod status;
mod times;

pub use abi::AbiKind;
pub use bounds::{AT_FDCWD, MOST_FILE_BYTES, MOST_NARROW};
pub use errno::{Answer, Errno, KernelFault, OutOfMemory};
pub use identity::Credentials;
pub use items::{
    ActionItem, Attributes, BacklogItem, BoundItem, BytesItem, ClockItem, DescriptorItem,
    LimitItem, LockItem, MessageItem, NameItem, NodeItem, OpenFileItem, OpenKind, PipeItem,
    RuleItem, SocketItem, StateItem, TableItem, TimeoutsItem, TimerItem, WaitingItem, WorkingItem,
};
pub use listing::DirEntry;
pub use lists::{ByteList, FdList, ItemList, NameText, PathText, SerialList};
pub use locks::Lock;
pub use open_flags::OpenFlags;
pub use process_end::End;
pub use rules::{
    BlobCause, BlobFault, CounterList, Counters, Hooks, MatchList, Rule, RuleList, RuleMatch,
    RuleTable, RuleTarget, TableName,
};
pub use signals::{Action, AltStack, SigInfo, SignalSet};
pub use sockets::{MOST_NAME_BYTES, Name, Received, SocketKind, SocketState};
pub use status::{FileTimes, Stat};
pub use times::{Limit, TimeSpec, TimeVal, TimerValue, Usage};

#[cfg(test)]
mod tests;
