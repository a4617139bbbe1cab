//! Texts between quotes, and what stands between two parts.

ghost use Rattle.std.specs.Prelude.{◌≡◌, ◌++◌, string_bytes, OnOk};
ghost use Rattle.std.specs.Char.{encode_utf8};
ghost use Rattle.yaml_base.specs.Quoted.{quoted};
ghost use Rattle.yaml_lines.specs.Listed.{before_part};

use std::alloc::AllocError;
use yaml_base::QuotedBytes;

/// Appends a text between quotes.
pub fn show_text(out: &mut String, text: &str) -> Result<(), AllocError>
    ensures { OnOk result (string_bytes out.new ≡ string_bytes out.old ++ quoted text.now) }
{
    show_bytes(out, text.as_bytes())
}

/// Appends a character between quotes.
pub fn show_char(out: &mut String, letter: char) -> Result<(), AllocError>
    ensures { OnOk result
        (string_bytes out.new ≡ string_bytes out.old ++ quoted (encode_utf8 letter)) }
{
    let mut bytes = [0u8; 4];
    show_text(out, letter.encode_utf8(&mut bytes))
}

/// Appends bytes between quotes.
pub fn show_bytes(out: &mut String, bytes: &[u8]) -> Result<(), AllocError>
    ensures { OnOk result (string_bytes out.new ≡ string_bytes out.old ++ quoted bytes.now) }
{
    let bytes = QuotedBytes(bytes);
    write!(out, "{bytes}")
}

/// Appends what stands before the part with this place: nothing before the first.
pub fn separate(out: &mut String, place: usize) -> Result<(), AllocError>
    ensures { OnOk result (string_bytes out.new ≡ string_bytes out.old ++ before_part place) }
{
    if place == 0 {
        return Ok(());
    }
    out.push_str(", ")
}
