// Room that is lent to the calls.
use base::bytes::past;

// The longest room for a text or a message, and the longest text.
pub(crate) const ROOM: usize = 16384;

// What stands in the room before the call, and in no text and no message.
const BLANK: u8 = 1;

pub(crate) fn blank_room() -> [u8; ROOM] {
    [BLANK; ROOM]
}

// The first n units, or all where there are fewer.
pub(crate) fn lent<T>(room: &mut [T], n: usize) -> &mut [T] {
    let size = n.min(room.len());
    &mut room[..size]
}

// The room behind the first n bytes is as it was.
pub(crate) fn is_blank(room: &[u8], n: usize) -> bool {
    past(room, n).iter().all(|b| *b == BLANK)
}
