//! Bytes as a line writes them.

ghost use Rattle.std.specs.Prelude.{◌≡◌, ◌++◌, string_bytes, OnOk};
ghost use Rattle.yaml_base.specs.Quoted.{hex_escape};
ghost use Rattle.yaml_lines.specs.WrittenLines.{spelled, spelling};

use std::alloc::AllocError;
use yaml_base::hex_digit;

/// Stands for no byte that would have to be written by its number.
pub const NO_BYTE: u8 = 0;

// Appends the number of a byte.
fn spell_number(out: &mut String, byte: u8) -> Result<(), AllocError>
    ensures { OnOk result (string_bytes out.new ≡ string_bytes out.old ++ hex_escape byte) }
{
    out.push_str("\\x")?;
    out.push(hex_digit(byte / 16))?;
    out.push(hex_digit(byte % 16))
}

// Appends a byte.
fn spell_byte(out: &mut String, byte: u8, numbered: u8) -> Result<(), AllocError>
    ensures { OnOk result (string_bytes out.new ≡ string_bytes out.old ++ spelling numbered byte) }
{
    if byte == b'\\' {
        out.push_str("\\\\")
    } else if byte == b'\n' {
        out.push_str("\\n")
    } else if byte == b'\t' {
        out.push_str("\\t")
    } else if byte < 32 || byte > 126 || byte == numbered {
        spell_number(out, byte)
    } else {
        out.push(byte as char)
    }
}

/// Appends bytes: printable ASCII as it is, but for a backslash and one byte more, and each other byte as an escape.
pub fn spell(out: &mut String, bytes: &[u8], numbered: u8) -> Result<(), AllocError>
    ensures { OnOk result (string_bytes out.new ≡ string_bytes out.old ++ spelled numbered bytes.now) }
{
    for byte in bytes {
        spell_byte(out, *byte, numbered)?;
    }
    Ok(())
}
