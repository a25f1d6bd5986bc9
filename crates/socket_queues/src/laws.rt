//! Laws of receives, above their definitions. A function here has no code: its contract is the law.

ghost use Rattle.socket_queues.specs.Laws.{BytesComeOnce, RightsComeOnce, StreamStopsBeforeRights, WantedBytesCome};

/// However many bytes each of several receives of a stream wants: the bytes that they take one after another, and behind them
/// those that wait still, are the bytes that waited, in their order.
pub fn bytes_come_once()
    ensures { BytesComeOnce }
{}

/// Open files that come with the bytes, and those that wait still, are the open files that waited, in their order: none twice,
/// and none is lost.
pub fn rights_come_once()
    ensures { RightsComeOnce }
{}

/// A receive that wants bytes takes some, where the first message has any.
pub fn wanted_bytes_come()
    ensures { WantedBytesCome }
{}

/// A receive takes nothing of a message that carries open files and isn't the first, nor of those behind it.
pub fn stream_stops_before_rights()
    ensures { StreamStopsBeforeRights }
{}
