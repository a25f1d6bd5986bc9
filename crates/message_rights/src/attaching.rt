//! What goes with the bytes of a message.

ghost use Rattle.std.specs.Prelude.{◌≡◌, ◌≤◌, ◌+◌, ◌*◌, length, true, is_some};
ghost use Rattle.kernel_values.specs.Outcome.{GivesTold, Tells, TellsAs};
ghost use Rattle.message_layouts.specs.Controls.{controls_of};
ghost use Rattle.message_layouts.specs.Walks.{control_of};
ghost use Rattle.message_rights.specs.Attaching.{outgoing, same_credentials, serial_at, with_control, with_credentials, with_rights};

use kernel_values::{Answer, Credentials, Errno, KernelFault};
use message_layouts::{
    NativeControl, NativeControls, SCM_CREDENTIALS, SCM_RIGHTS, SOL_SOCKET, credentials_in,
    right_at, rights_count,
};
use open_files::OpenFiles;
use socket_tables::Outgoing;
use std::alloc::Global;
use std::collections::LinkedList;

/// The most open files that go with one send: `SCM_MAX_FD` of `include/net/scm.h`.
const MOST_RIGHTS: usize = 253;

fn same_credentials(one: Credentials, other: Credentials) -> bool
    ensures { result ≡ same_credentials one other }
{
    one.pid == other.pid && one.uid == other.uid && one.gid == other.gid
}

/// The open file of one of the descriptors that a message names. EBADF where it isn't open.
fn serial_at(open_files: &OpenFiles, content: &[u8], index: usize) -> Result<u64, Errno>
    requires { 4 * (index + 1) ≤ length content.now }
    ensures { Tells result (serial_at open_files.now content.now index) }
{
    let (serial, _) = open_files.open_file(i64::from(right_at(content, index)))?;
    Ok(serial)
}

/// Adds the open files of the descriptors that a message names. EINVAL above 253 of one send; EBADF where one isn't open.
#[tactic(auto, using(crate::proofs::Attachings::one_more, crate::proofs::Attachings::one_refused, crate::proofs::Attachings::all_filled))]
fn add_rights(open_files: &OpenFiles, sent: Outgoing, content: &[u8]) -> Answer<Outgoing>
    ensures { GivesTold (λ o. o) result (with_rights open_files.now sent content.now) }
{
    let count = rights_count(content);
    if sent.rights.len() + count > MOST_RIGHTS {
        return Err(KernelFault::Errno(Errno::InvalidArgument));
    }
    let mut rights = sent.rights;
    for index in 0..count {
        let serial = match serial_at(open_files, content, index) {
            Ok(serial) => serial,
            Err(errno) => return Err(KernelFault::Errno(errno)),
        };
        if rights.push_back(serial).is_err() {
            return Err(KernelFault::OutOfMemory);
        }
    }
    Ok(Outgoing {
        rights,
        sender: sent.sender,
    })
}

/// Puts credentials in the place of those before. EINVAL where there are none; EPERM for others than the process's own without the privilege.
fn set_credentials(
    own: Credentials,
    privileged: bool,
    sent: Outgoing,
    told: Option<Credentials>,
) -> Result<Outgoing, Errno>
    ensures { TellsAs (λ o. o) result (with_credentials own privileged sent told) }
{
    let Some(sender) = told else {
        return Err(Errno::InvalidArgument);
    };
    if !privileged && !same_credentials(own, sender) {
        return Err(Errno::NotPermitted);
    }
    Ok(Outgoing {
        rights: sent.rights,
        sender,
    })
}

/// Adds what one control message has. One of another level is passed over; EINVAL for another type.
#[tactic(auto, unfolding(crate::specs::Attaching::with_control))]
fn add_control(
    open_files: &OpenFiles,
    own: Credentials,
    privileged: bool,
    sent: Outgoing,
    control: NativeControl<'_>,
) -> Answer<Outgoing>
    ensures { GivesTold (λ o. o) result (with_control open_files.now own privileged sent (control_of control.entry)) }
{
    if control.level != SOL_SOCKET {
        return Ok(sent);
    }
    match control.kind {
        SCM_RIGHTS => add_rights(open_files, sent, control.content),
        SCM_CREDENTIALS => {
            let told = credentials_in(control.content);
            Ok(set_credentials(own, privileged, sent, told)?)
        }
        _ => Err(KernelFault::Errno(Errno::InvalidArgument)),
    }
}

/// What goes with the bytes of a message that is sent with control messages of the kernel's own layout: the open files of all the descriptors that
/// they name, and the last credentials, which are the process's own where none are told.
///
/// Message by message: one of another level than `SOL_SOCKET` is passed over; with more than 253 descriptors in all EINVAL, then EBADF where one isn't open;
/// credentials of another length than 12 EINVAL, and EPERM for others than the process's own without the privilege; another type EINVAL.
#[tactic(auto, unfolding(crate::specs::Attaching::with_controls))]
pub fn outgoing(
    alloc: Global,
    open_files: &OpenFiles,
    own: Credentials,
    privileged: bool,
    controls: &[u8],
) -> Answer<Outgoing>
    requires { is_some (controls_of 8 controls.now) ≡ true }
    ensures { GivesTold (λ o. o) result (outgoing open_files.now own privileged controls.now) }
{
    let mut sent = Outgoing {
        rights: LinkedList::new(alloc),
        sender: own,
    };
    let mut left = NativeControls::new(controls);
    while let Some(control) = left.next() {
        sent = add_control(open_files, own, privileged, sent, control)?;
    }
    Ok(sent)
}
