//! How sockets come together: `listen(2)`, `connect(2)`, `accept(2)` and `shutdown(2)`.

ghost use Rattle.std.specs.Prelude.{◌≡◌, ◌+◌, OnErr, OnOk, IsSome, Some, if◌then◌else◌};
ghost use Rattle.number_maps.specs.NumberMap.{at, changed};
ghost use Rattle.socket_tables.specs.declared.state.Socket.{Socket};
ghost use Rattle.kernel_values.specs.Outcome.{GivesAlways, Tells, TellsAs};
ghost use Rattle.socket_tables.specs.Meeting.{backlog_in, backlog_of, called, connect_datagram, first_connection, is_connected, listen, listener, named_socket, shut, shut_status, with_connection, with_shut, with_waiting, without_first};
ghost use Rattle.socket_tables.specs.Sockets.{adjusted, is_listening, total_held, with_meeting, with_status, with_status_at};

use crate::sockets::{MOST_HELD, Sockets, is_stream};
use crate::state::{Meeting, Socket, SocketStatus};
use kernel_values::{Answer, Errno, KernelFault, OutOfMemory, SocketKind};
use socket_queues::SocketName;
use std::alloc::Global;
use std::collections::BTreeMap;

/// The most connections that may wait, but for one more.
const MOST_BACKLOG: i64 = 128;

/// A backlog is cut to 128, and a negative one is 128.
fn backlog_of(backlog: i64) -> u32
    ensures { result ≡ backlog_of backlog }
{
    if backlog < 0 || backlog > MOST_BACKLOG {
        return MOST_BACKLOG as u32;
    }
    backlog as u32
}

/// Whether a socket has a peer, or had one that is gone.
pub(crate) fn is_connected(socket: &Socket) -> bool
    ensures { result ≡ is_connected socket.now }
{
    match socket.status.meeting {
        Meeting::Connected { peer: _ } => true,
        Meeting::New | Meeting::Listening { backlog: _ } => false,
    }
}

impl Socket {
    /// The connection that accept takes: the one that has waited longest. EOPNOTSUPP for a datagram socket; EINVAL where it isn't listening;
    /// EAGAIN where none waits.
    #[tactic(auto, unfolding(crate::specs::Meeting::first_connection))]
    pub fn first_connection(&self) -> Result<u64, Errno>
        ensures { Tells result (first_connection self.now) }
    {
        if !is_stream(self) {
            return Err(Errno::OperationNotSupported);
        }
        let Meeting::Listening { backlog: _ } = self.status.meeting else {
            return Err(Errno::InvalidArgument);
        };
        match self.waiting.front() {
            Some(serial) => Ok(*serial),
            None => Err(Errno::TryAgain),
        }
    }
}

/// The status of a socket that has to do with another.
fn with_meeting(status: SocketStatus, meeting: Meeting) -> SocketStatus
    ensures { result ≡ record status { meeting = meeting } }
{
    SocketStatus { meeting, ..status }
}

/// The status with more marks of shutdown.
fn with_shut(status: SocketStatus, how: i64) -> SocketStatus
    ensures { result ≡ shut_status how status }
{
    SocketStatus {
        reading_shut: status.reading_shut || how != 1,
        writing_shut: status.writing_shut || how != 0,
        ..status
    }
}

/// How many connections may wait, but for one more. ECONNREFUSED of a socket that isn't listening.
fn backlog_in(meeting: Meeting) -> Result<u32, Errno>
    ensures { Tells result (backlog_in meeting) }
{
    match meeting {
        Meeting::Listening { backlog } => Ok(backlog),
        Meeting::New | Meeting::Connected { peer: _ } => Err(Errno::ConnectionRefused),
    }
}

/// Whether a socket is listening.
pub(crate) fn is_listening(socket: &Socket) -> bool
    ensures { result ≡ is_listening socket.now.status.meeting }
{
    match socket.status.meeting {
        Meeting::Listening { backlog: _ } => true,
        Meeting::New | Meeting::Connected { peer: _ } => false,
    }
}

/// Sets what is set of a socket, where there is one.
#[tactic(auto, using(crate::proofs::Holdings::total_with_status))]
fn put_status(map: &mut BTreeMap<u64, Socket>, serial: u64, status: SocketStatus)
    ensures after { map.new.entries ≡ with_status_at map.old.entries serial status (at map.old.entries serial) }
    ensures total { total_held map.new.entries ≡ total_held map.old.entries }
{
    if let Some(socket) = map.get_mut(&serial) {
        socket.status = status;
    }
}

/// Puts a connection behind those that wait in a socket that is there. Where memory is wanting, as much is held as before.
#[tactic(auto, using(crate::proofs::Holdings::total_same, crate::proofs::Holdings::total_with_waiting))]
fn push_waiting(
    map: &mut BTreeMap<u64, Socket>,
    there: u64,
    connection: u64,
) -> Result<(), OutOfMemory>
    requires { IsSome (at map.old.entries there) }
    ensures ok { OnOk result ((k : Socket) → at map.old.entries there ≡ Some k → map.new.entries ≡ changed map.old.entries there (with_waiting connection k)) }
    ensures total { OnOk result (total_held map.new.entries ≡ total_held map.old.entries + 1) }
    ensures err { OnErr result (total_held map.new.entries ≡ total_held map.old.entries) }
{
    match map.get_mut(&there) {
        Some(socket) => match socket.waiting.push_back(connection) {
            Ok(()) => Ok(()),
            Err(_) => Err(OutOfMemory),
        },
        None => unreachable!(),
    }
}

/// The connection that has waited longest in a socket that is there waits no more. It tells whether there was one.
#[tactic(auto, using(crate::proofs::Holdings::total_without_first, crate::proofs::Holdings::total_without_none))]
fn pop_waiting(map: &mut BTreeMap<u64, Socket>, serial: u64) -> bool
    requires { IsSome (at map.old.entries serial) }
    ensures after { (k : Socket) → at map.old.entries serial ≡ Some k → map.new.entries ≡ changed map.old.entries serial (without_first k) }
    ensures total { total_held map.new.entries + (if result then 1 else 0) ≡ total_held map.old.entries }
{
    match map.get_mut(&serial) {
        Some(socket) => match socket.waiting.pop_front() {
            Some(_) => true,
            None => false,
        },
        None => unreachable!(),
    }
}

impl Sockets {
    /// Sets what is set of a socket, where there is one.
    pub(crate) fn set_status(&mut self, serial: u64, status: SocketStatus)
        ensures { self.new ≡ adjusted self.old serial (with_status status) }
    {
        put_status(&mut self.map, serial, status);
    }

    /// The socket that has a name, with its serial number. ECONNREFUSED where none has it.
    #[tactic(auto, unfolding(crate::specs::Meeting::named_socket))]
    pub(crate) fn named_socket(&self, name: &[u8]) -> Result<(u64, &Socket), Errno>
        ensures { TellsAs (λ found. (found.0, found.1.now)) result (named_socket self.now name.now) }
    {
        let Some(serial) = self.names.holder(name) else {
            return Err(Errno::ConnectionRefused);
        };
        match self.map.get(&serial) {
            Some(socket) => Ok((serial, socket)),
            None => Err(Errno::ConnectionRefused),
        }
    }

    /// listen: connections to the socket's name may wait, one more than `backlog`, which is cut to 128; a negative one is 128.
    ///
    /// ENOTSOCK; EOPNOTSUPP for a datagram socket; EINVAL where bind put no name on it, or it has or had a peer. It takes no memory.
    pub fn listen(&mut self, serial: u64, backlog: i64) -> Answer<()>
        ensures { GivesAlways (λ _. tt) result self.new (listen self.old serial backlog) }
    {
        let socket = self.socket(serial)?;
        if !is_stream(socket) {
            return Err(KernelFault::Errno(Errno::OperationNotSupported));
        }
        if !socket.status.bound || is_connected(socket) {
            return Err(KernelFault::Errno(Errno::InvalidArgument));
        }
        let backlog = backlog_of(backlog);
        self.meet(serial, Meeting::Listening { backlog });
        Ok(())
    }

    /// The listening socket to which a stream connects by a name.
    ///
    /// ENOTSOCK; EISCONN where it has or had a peer; EINVAL where it listens; ECONNREFUSED where no socket has the name; EPROTOTYPE where a
    /// datagram socket has it; ECONNREFUSED where that one doesn't listen; EAGAIN where more connections wait than its backlog.
    #[tactic(auto, unfolding(crate::specs::Meeting::listener))]
    pub fn listener(&self, caller: u64, name: &[u8]) -> Result<u64, Errno>
        ensures { Tells result (listener self.now caller name.now) }
    {
        let socket = self.socket(caller)?;
        if is_connected(socket) {
            return Err(Errno::AlreadyConnected);
        }
        if is_listening(socket) {
            return Err(Errno::InvalidArgument);
        }
        let (there, listener) = self.named_socket(name)?;
        if !is_stream(listener) {
            return Err(Errno::WrongSocketType);
        }
        let backlog = backlog_in(listener.status.meeting)?;
        if listener.waiting.len() > backlog as usize {
            return Err(Errno::TryAgain);
        }
        Ok(there)
    }

    /// What a socket is called, where there is one.
    fn called(&self, serial: u64) -> SocketName
        ensures { result ≡ called (at self.now.entries serial) }
    {
        match self.map.get(&serial) {
            Some(socket) => socket.name.copied(),
            None => SocketName::new(&[]),
        }
    }

    /// Puts a connection behind those that wait in a socket, where there is one.
    fn add_waiting(&mut self, there: u64, connection: u64) -> Result<(), OutOfMemory>
        ensures { OnOk result (self.new ≡ adjusted self.old there (with_waiting connection)) }
    {
        if self.held + 1 >= MOST_HELD {
            return Err(OutOfMemory);
        }
        if self.map.get(&there).is_none() {
            return Ok(());
        }
        push_waiting(&mut self.map, there, connection)?;
        self.held += 1;
        Ok(())
    }

    /// Lets a socket have to do with another, where there is such a socket.
    fn meet(&mut self, serial: u64, meeting: Meeting)
        ensures { self.new ≡ adjusted self.old serial (with_meeting meeting) }
    {
        if let Some(socket) = self.map.get(&serial) {
            let status = with_meeting(socket.status, meeting);
            self.set_status(serial, status);
        }
    }

    /// Marks what is shut of a socket, where there is such a socket.
    fn mark_shut(&mut self, serial: u64, how: i64)
        ensures { self.new ≡ adjusted self.old serial (with_shut how) }
    {
        if let Some(socket) = self.map.get(&serial) {
            let status = with_shut(socket.status, how);
            self.set_status(serial, status);
        }
    }

    /// Connects a stream to a listening socket, both by serial number: its peer is a new socket of the serial number `connection`.
    pub fn add_connection(
        &mut self,
        alloc: Global,
        caller: u64,
        there: u64,
        connection: u64,
    ) -> Result<(), OutOfMemory>
        ensures { OnOk result (self.new ≡ with_connection self.old caller there connection) }
    {
        let name = self.called(there);
        let of_caller = Meeting::Connected { peer: caller };
        self.add_met(alloc, connection, SocketKind::Stream, of_caller, name)?;
        self.add_waiting(there, connection)?;
        self.meet(caller, Meeting::Connected { peer: connection });
        Ok(())
    }

    /// connect of a datagram socket: the socket of a name becomes its peer.
    ///
    /// ENOTSOCK; ECONNREFUSED where no socket has the name; EPROTOTYPE where a stream has it. It takes no memory.
    pub fn connect_datagram(&mut self, serial: u64, name: &[u8]) -> Answer<()>
        ensures { GivesAlways (λ _. tt) result self.new (connect_datagram self.old serial name.now) }
    {
        self.socket(serial)?;
        let (peer, there) = self.named_socket(name)?;
        if is_stream(there) {
            return Err(KernelFault::Errno(Errno::WrongSocketType));
        }
        self.meet(serial, Meeting::Connected { peer });
        Ok(())
    }

    /// The connection that has waited longest in a socket waits no more. It takes no memory.
    pub fn take_connection(&mut self, serial: u64)
        ensures { self.new ≡ adjusted self.old serial without_first }
    {
        if self.map.get(&serial).is_none() {
            return;
        }
        if pop_waiting(&mut self.map, serial) {
            self.held -= 1;
        }
    }

    /// shutdown: 0 shuts reading, 1 writing and 2 both, of a socket that isn't connected too.
    ///
    /// ENOTSOCK; EINVAL for another number. It takes no memory.
    pub fn shut(&mut self, serial: u64, how: i64) -> Answer<()>
        ensures { GivesAlways (λ _. tt) result self.new (shut self.old serial how) }
    {
        self.socket(serial)?;
        if how < 0 || how > 2 {
            return Err(KernelFault::Errno(Errno::InvalidArgument));
        }
        self.mark_shut(serial, how);
        Ok(())
    }
}
