//! Descriptors, open files and pipes told item by item, in the order of a report.

ghost use Rattle.std.specs.Prelude.{◌≡◌, ◌∷◌, IfOk};
ghost use Rattle.kernel_values.specs.Items.{TellsFirst};
ghost use Rattle.open_files.specs.Items.{open_items, open_left, socket_item, told_left};

use crate::state::{OpenFile, OpenFiles};
use kernel_values::{
    ByteList, DescriptorItem, OpenFileItem, OutOfMemory, PipeItem, SocketItem, StateItem,
};
use socket_tables::{Socket, SocketPart, state_told};
use std::alloc::Global;

/// Where the telling of what is open is: a part of what is told, and the last of that part that was told.
#[derive(Clone, Copy, Debug)]
pub enum OpenCursor {
    /// At descriptors whose number is greater than this one.
    Descriptors(Option<u64>),
    /// At open files whose serial number is greater than this one.
    OpenFiles(Option<u64>),
    /// At a place of what is told of the socket with this serial number.
    Socket(u64, SocketPart),
    /// At pipes whose inode number is greater than this one.
    Pipes(Option<u64>),
}

/// An item, and the cursor at those behind it.
type Told = Option<(StateItem, OpenCursor)>;

impl OpenFiles {
    /// Where the telling of what is open begins: all items are left.
    pub fn first_item(&self) -> OpenCursor
        ensures { open_left self.now result ≡ open_items self.now }
    {
        OpenCursor::Descriptors(None)
    }

    #[tactic(auto, unfolding(crate::specs::Items::open_left))]
    fn pipe_item(&self, alloc: Global, last: Option<u64>) -> Result<Told, OutOfMemory>
        ensures { IfOk result (λ told. TellsFirst (open_left self.now) (OpenCursor.Pipes last) told) }
    {
        let Some((inode, pipe)) = self.pipes.after(last) else {
            return Ok(None);
        };
        let bytes = ByteList::from_vec(pipe.to_vec(alloc)?);
        let item = StateItem::Pipe(PipeItem { inode, bytes });
        Ok(Some((item, OpenCursor::Pipes(Some(inode)))))
    }

    /// The line of an open file that is a Unix socket.
    fn socket_item(&self, serial: u64, file: OpenFile, socket: &Socket) -> StateItem
        ensures { result ≡ socket_item self.now.sockets (serial, file) socket.now }
    {
        let status = socket.status;
        StateItem::Socket(SocketItem {
            serial,
            kind: status.kind,
            flags: file.flags,
            inode: file.inode,
            state: state_told(status.meeting),
            peer: self.sockets.peer_told(status.meeting),
            shut_read: status.reading_shut,
            shut_write: status.writing_shut,
            passes_credentials: status.passes_credentials,
        })
    }

    /// The line of an open file, and where what is told behind it begins.
    #[tactic(auto, unfolding(crate::specs::Items::open_left))]
    fn line_of(&self, serial: u64, file: OpenFile) -> (StateItem, OpenCursor)
        ensures { told_left self.now serial file ≡ result.0 ∷ open_left self.now result.1 }
    {
        match self.sockets.get(serial) {
            Some(socket) => {
                let item = self.socket_item(serial, file, socket);
                (item, OpenCursor::Socket(serial, SocketPart::Bound))
            }
            None => {
                let item = StateItem::OpenFile(OpenFileItem {
                    serial,
                    kind: file.kind,
                    flags: file.flags,
                    position: file.position,
                    inode: file.inode,
                });
                (item, OpenCursor::OpenFiles(Some(serial)))
            }
        }
    }

    #[tactic(auto, unfolding(crate::specs::Items::open_left))]
    fn open_file_item(&self, alloc: Global, last: Option<u64>) -> Result<Told, OutOfMemory>
        ensures { IfOk result (λ told. TellsFirst (open_left self.now) (OpenCursor.OpenFiles last) told) }
    {
        match self.files.after(last) {
            Some((serial, file)) => Ok(Some(self.line_of(serial, *file))),
            None => self.pipe_item(alloc, None),
        }
    }

    #[tactic(auto, unfolding(crate::specs::Items::open_left))]
    fn socket_part_item(
        &self,
        alloc: Global,
        serial: u64,
        part: SocketPart,
    ) -> Result<Told, OutOfMemory>
        ensures { IfOk result (λ told. TellsFirst (open_left self.now) (OpenCursor.Socket serial part) told) }
    {
        let Some(socket) = self.sockets.get(serial) else {
            return self.open_file_item(alloc, Some(serial));
        };
        match socket.item(alloc, serial, part)? {
            Some((item, next)) => Ok(Some((item, OpenCursor::Socket(serial, next)))),
            None => self.open_file_item(alloc, Some(serial)),
        }
    }

    #[tactic(auto, unfolding(crate::specs::Items::open_left))]
    fn descriptor_item(&self, alloc: Global, last: Option<u64>) -> Result<Told, OutOfMemory>
        ensures { IfOk result (λ told. TellsFirst (open_left self.now) (OpenCursor.Descriptors last) told) }
    {
        match self.descriptors.after(last) {
            Some((number, held)) => {
                let (serial, cloexec) = (held.serial, held.cloexec);
                let item = StateItem::Descriptor(DescriptorItem {
                    number,
                    serial,
                    cloexec,
                });
                Ok(Some((item, OpenCursor::Descriptors(Some(number)))))
            }
            None => self.open_file_item(alloc, None),
        }
    }

    /// The first of the items that are left at a cursor, and the cursor at those behind it. None exactly where no item is left.
    pub fn item(&self, alloc: Global, cursor: OpenCursor) -> Result<Told, OutOfMemory>
        ensures { IfOk result (λ told. TellsFirst (open_left self.now) cursor told) }
    {
        match cursor {
            OpenCursor::Descriptors(last) => self.descriptor_item(alloc, last),
            OpenCursor::OpenFiles(last) => self.open_file_item(alloc, last),
            OpenCursor::Socket(serial, part) => self.socket_part_item(alloc, serial, part),
            OpenCursor::Pipes(last) => self.pipe_item(alloc, last),
        }
    }
}
