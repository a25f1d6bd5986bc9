//! Rule tables of iptables as values: `include/uapi/linux/netfilter_ipv4/ip_tables.h` without its places and sizes.

ghost use Rattle.std.specs.Prelude.{◌≡◌};
ghost use Rattle.kernel_values.specs.Rules.{blob_errno};

use crate::errno::Errno;
use crate::lists::ItemList;

/// A match of a rule.
#[derive(Clone, Copy, Debug, PartialEq, Eq)]
pub enum RuleMatch {
    /// `struct xt_tcp`: ports, option, flags and, in its last byte, which of them are inverted.
    Tcp([u8; 12]),
    /// `struct xt_udp`: ports and, in its last byte, which of them are inverted.
    Udp([u8; 9]),
    /// `struct xt_mark_mtinfo1`
    Mark {
        mark: u32,
        mask: u32,
        invert: u8,
    },
    /// `struct xt_rateinfo`
    Limit {
        avg: u32,
        burst: u32,
        prev: u64,
        credit: u32,
        cap: u32,
        cost: u32,
    },
}

/// What a rule does with a packet.
#[derive(Clone, Copy, Debug, PartialEq, Eq)]
pub enum RuleTarget {
    Drop,
    Accept,
    Queue,
    Return,
    /// On to another rule: in a table its index, in bytes its place.
    Jump(u32),
    /// `struct xt_error_target`: 30 bytes.
    Error([u8; 30]),
    /// `struct xt_mark_tginfo2`
    Mark { mark: u32, mask: u32 },
}

/// What a rule has counted: `struct xt_counters`.
#[derive(Clone, Copy, Debug, PartialEq, Eq)]
pub struct Counters {
    pub packets: u64,
    pub bytes: u64,
}

/// The matches of a rule, in order.
pub type MatchList = ItemList<RuleMatch>;
/// The counters of the rules of a table, in order.
pub type CounterList = ItemList<Counters>;

/// A rule: `struct ipt_entry`, its matches and its target.
#[derive(Debug, Drop)]
pub struct Rule {
    /// `struct ipt_ip`: addresses and masks, interfaces, the protocol at 80, flags at 82 and inverting flags at 83.
    pub ip: [u8; 84],
    pub matches: MatchList,
    pub target: RuleTarget,
    pub counters: Counters,
}

/// The rules of a table, in order.
pub type RuleList = ItemList<Rule>;

/// The tables of rules.
#[derive(Clone, Copy, Debug, PartialEq, Eq)]
pub enum TableName {
    Filter,
    Mangle,
    Raw,
}

/// Where the hooks of a table begin, and their policies, as indices of rules: prerouting, input, forward, output and
/// postrouting (`include/uapi/linux/netfilter.h`). A hook that isn't the table's has 0.
#[derive(Clone, Copy, Debug, PartialEq, Eq)]
pub struct Hooks {
    pub entry: [u32; 5],
    pub underflow: [u32; 5],
}

/// A table of rules.
#[derive(Debug, Drop)]
pub struct RuleTable {
    pub name: TableName,
    pub rules: RuleList,
    pub hooks: Hooks,
}

/// What is wrong with the bytes of rules.
#[derive(Clone, Copy, Debug, PartialEq, Eq)]
pub enum BlobCause {
    /// Fewer bytes are left than a rule's head has.
    Short,
    /// The offsets of target or next rule don't fit, or the rule's native size has no 16 bits.
    Offsets,
    /// Flags that there are not.
    Flags,
    /// A match's size or name.
    MatchShape,
    /// A match that there is not.
    MatchUnknown,
    /// A match that doesn't go with the rule's protocol.
    Protocol,
    /// The target's size or name.
    TargetShape,
    /// A target that there is not.
    TargetUnknown,
    /// A verdict that there is not.
    Verdict,
    /// More or fewer rules than the header says.
    Count,
    /// A jump to no rule.
    Jump,
    /// The hooks, or where one begins or ends.
    Hooks,
    /// A rule that is reached reaches past the last one.
    FallOff,
    /// The rules that are reached go round.
    Loop,
}

/// The first fault of the bytes of rules, and the index of its rule.
#[derive(Clone, Copy, Debug, PartialEq, Eq)]
pub struct BlobFault {
    pub rule: u32,
    pub cause: BlobCause,
}

impl BlobFault {
    /// What a call answers: ENOENT for a match or a target that there is not, ELOOP for rules that go round, else EINVAL.
    pub fn errno(&self) -> Errno
        ensures { result ≡ blob_errno self.now.cause }
    {
        match self.cause {
            BlobCause::MatchUnknown | BlobCause::TargetUnknown => Errno::NoEntry,
            BlobCause::Loop => Errno::Loop,
            _ => Errno::InvalidArgument,
        }
    }
}
