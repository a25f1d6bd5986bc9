//! The lines that tell the kernel's state, item by item.

ghost use Rattle.std.specs.Prelude.{◌≡◌, ◌++◌, OnOk};
ghost use Rattle.report_text.specs.Items.{is_front, item_text, peak_line};

use crate::clocks::{put_clock, put_ended, put_timer};
use crate::fields::put_line;
use crate::limits::put_limit;
use crate::open_files::{put_fd, put_open, put_pipe};
use crate::rules::{put_rule, put_table};
use crate::signals::{put_action, put_alt, put_mask, put_pending};
use crate::sockets::{put_backlog, put_bound, put_message, put_socket, put_timeouts, put_wait};
use crate::tree::{put_content, put_cwd, put_lock, put_name, put_node};
use kernel_values::{AbiKind, OutOfMemory, StateItem};
use std::alloc::Global;

/// Appends the line of an item, for a process of this kind.
#[tactic(auto, unfolding(crate::specs::Items::item_text))]
pub fn put_item(
    alloc: Global,
    out: &mut Vec<u8>,
    abi: AbiKind,
    item: StateItem,
) -> Result<(), OutOfMemory>
    ensures { OnOk result (out.new.items ≡ out.old.items ++ item_text abi item) }
{
    match item {
        StateItem::Clock(clock) => put_clock(alloc, out, clock),
        StateItem::Ended(end) => put_ended(alloc, out, end),
        StateItem::Timer(timer) => put_timer(alloc, out, timer),
        StateItem::Mask(mask) => put_mask(alloc, out, mask),
        StateItem::AltStack(stack) => put_alt(alloc, out, stack),
        StateItem::Action(action) => put_action(alloc, out, action),
        StateItem::Pending(info) => put_pending(alloc, out, info),
        StateItem::Limit(limit) => put_limit(alloc, out, limit),
        StateItem::Working(working) => put_cwd(alloc, out, working),
        StateItem::Node(node) => put_node(alloc, out, node),
        StateItem::Name(name) => put_name(alloc, out, &name),
        StateItem::Bytes(content) => put_content(alloc, out, &content),
        StateItem::Lock(lock) => put_lock(alloc, out, lock),
        StateItem::Descriptor(descriptor) => put_fd(alloc, out, descriptor),
        StateItem::OpenFile(file) => put_open(alloc, out, abi, file),
        StateItem::Socket(socket) => put_socket(alloc, out, abi, socket),
        StateItem::Bound(bound) => put_bound(alloc, out, &bound),
        StateItem::Timeouts(timeouts) => put_timeouts(alloc, out, timeouts),
        StateItem::Backlog(backlog) => put_backlog(alloc, out, backlog),
        StateItem::Waiting(waiting) => put_wait(alloc, out, waiting),
        StateItem::Message(message) => put_message(alloc, out, &message),
        StateItem::Pipe(pipe) => put_pipe(alloc, out, &pipe),
        StateItem::Table(table) => put_table(alloc, out, &table),
        StateItem::Rule(rule) => put_rule(alloc, out, &rule),
    }
}

/// Whether an item stands above the line of the peak.
#[tactic(auto, unfolding(crate::specs::Items::is_front))]
pub fn is_front(item: &StateItem) -> bool
    ensures { result ≡ is_front item.now }
{
    matches!(item, StateItem::Clock(_) | StateItem::Ended(_))
}

/// Appends `peak N`: the most bytes that the translation of a call took.
#[tactic(auto, unfolding(crate::specs::Items::peak_line))]
pub fn put_peak(alloc: Global, out: &mut Vec<u8>, peak: u64) -> Result<(), OutOfMemory>
    ensures { OnOk result (out.new.items ≡ out.old.items ++ peak_line peak) }
{
    put_line(alloc, out, b"peak", &[peak])
}
