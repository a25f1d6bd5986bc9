//! The header of a blob.

/// `struct ipt_replace`, what stands in front of its rules.
#[derive(Clone, Copy, Debug, PartialEq, Eq)]
pub struct ReplaceHeader {
    /// The table's name, and what it has behind its first zero.
    pub name: [u8; 32],
    /// A bit for each hook.
    pub valid_hooks: u32,
    /// How many rules follow.
    pub num_entries: u32,
    /// Their bytes.
    pub size: u32,
    /// The place of the first rule, by hook.
    pub hook_entry: [u32; 5],
    /// The place of the policy, by hook.
    pub underflow: [u32; 5],
    /// How many counters there is room for.
    pub num_counters: u32,
    /// Where the old counters are stored.
    pub counters: u64,
}
