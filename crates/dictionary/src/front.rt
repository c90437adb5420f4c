//! Copying a value to who asked for it.
ghost use Rattle.std.specs.Prelude.{◌≡◌, length, None};
ghost use Rattle.dictionary.specs.Questions.{copy_refusal, copied_or, overlaid};

use crate::refusal::CopyRefusal;

/// Copies a value that may be read to the front of a buffer and tells its length. A buffer that is shorter than the value is refused
/// by 12, and stays as it was.
pub fn copy_to_front(value: &[u8], buffer: &mut [u8]) -> Result<usize, CopyRefusal>
    ensures answer { result ≡ copied_or (copy_refusal None (length buffer.old) (length value.now)) (length value.now) }
    ensures after { buffer.new ≡ overlaid (copy_refusal None (length buffer.old) (length value.now)) value.now buffer.old }
{
    if buffer.len() < value.len() {
        return Err(CopyRefusal::ShortBuffer);
    }
    buffer[..value.len()].copy_from_slice(value);
    Ok(value.len())
}
