//! A text in the room that a caller gives.

ghost use Rattle.std.specs.Prelude.{◌≡◌, ◌<◌, false, length, string_bytes, take, true};

use crate::rows::YamlSizes;

/// Copies a text to the front of the room, if there is room for it, and tells its size.
pub(crate) fn fill(text: &String, out: &mut [u8], sizes: &mut YamlSizes) -> bool
    ensures size { sizes.new.texts ≡ length (string_bytes text.now) }
    ensures filled { result ≡ true → take sizes.new.texts out.new ≡ string_bytes text.now }
    ensures lacks { result ≡ false → length out.new < sizes.new.texts }
{
    let bytes = text.as_bytes();
    sizes.rows = 0;
    sizes.texts = bytes.len() as u64;
    if bytes.len() > out.len() {
        return false;
    }
    out[..bytes.len()].copy_from_slice(bytes);
    true
}
