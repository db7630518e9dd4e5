// Texts that are written to a buffer of C.
ghost use Rattle.std.specs.Prelude.{◌≡◌, ◌≢◌, ◌<◌, ◌++◌, drop, length};

use crate::status::Status;

/// Copies the text to the front of the buffer if it fits, and reports its length.
pub fn copied(text: &[u8], buffer: &mut [u8], count: &mut usize) -> Status
    ensures done { result ≡ Status.Done → buffer.new ≡ text.now ++ drop (length text.now) buffer.old }
    ensures space { result ≢ Status.Done → (result ≡ Status.Space) × (length buffer.old < length text.now) × (buffer.new ≡ buffer.old) }
    ensures count { count.new ≡ length text.now }
{
    *count = text.len();
    if buffer.len() < text.len() {
        return Status::Space;
    }
    let (front, _) = buffer.split_at_mut(text.len());
    front.copy_from_slice(text);
    Status::Done
}
