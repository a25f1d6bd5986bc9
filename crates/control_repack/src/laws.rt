//! A law of the control messages that are told. The function has no code: its contract is the law.

ghost use Rattle.control_repack.specs.Laws.{AmpleRoomTellsAll};

/// With ample room the bytes that are told are those of all messages, and nothing is cut but what was dropped before.
pub fn ample_room_tells_all()
    ensures { AmpleRoomTellsAll }
{}
