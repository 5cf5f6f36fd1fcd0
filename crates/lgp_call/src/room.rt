//! Bytes that a caller gives for a text.
ghost use Rattle.std.specs.Prelude.{◌≡◌};
ghost use Rattle.lgp_call.specs.Room.{filled};

/// Writes a text into a room, as far as it fits. What lies after the text stays.
pub(crate) fn fill(room: &mut [u8], text: &[u8])
    ensures { room.new ≡ filled text.now room.old }
{
    let count = text.len().min(room.len());
    room[..count].copy_from_slice(&text[..count]);
}
