//! Text and bytes between double quotes, as faults and data show them, and text without control characters.

ghost use Rattle.std.specs.Prelude.{◌≡◌, ◌<◌, IsUtf8, Some, false, true};
ghost use Rattle.std.specs.List.{flat_map};
ghost use Rattle.std.specs.Option.{option_map};
ghost use Rattle.std.specs.Str.{chars};
ghost use Rattle.std.specs.Fmt.{DisplaysOnOk, HasWritten, IsPlainFormatter, WritesOnOk, digit_glyph};
ghost use Rattle.yaml_tree.specs.Quoted.{control_escape, escaped, is_control, quoted, quoted_text};
ghost use Rattle.yaml_tree.specs.Quoted.{readable_character, visible, visible_character};

use std::fmt;
use std::fmt::Write;

/// The digit of a number below sixteen.
pub fn hex_digit(digit: u8) -> char
    requires { digit < 16 }
    ensures { result ≡ digit_glyph false digit }
{
    if digit < 10 {
        (b'0' + digit) as char
    } else {
        (b'a' - 10 + digit) as char
    }
}

// Writes a byte as it stands between quotes.
fn write_escaped_byte<W: fmt::Write>(byte: u8, f: &mut fmt::Formatter<W>) -> fmt::Result
    ensures { WritesOnOk W.write_str_gives f.old result (escaped byte) f.new }
{
    if byte == b'"' || byte == b'\\' {
        f.write_char('\\')?;
        f.write_char(byte as char)
    } else if byte >= 32 && byte < 127 {
        f.write_char(byte as char)
    } else {
        f.write_str("\\x")?;
        f.write_char(hex_digit(byte / 16))?;
        f.write_char(hex_digit(byte % 16))
    }
}

// Writes bytes as they stand between quotes.
fn write_escaped_bytes<W: fmt::Write>(bytes: &[u8], f: &mut fmt::Formatter<W>) -> fmt::Result
    ensures { WritesOnOk W.write_str_gives f.old result (flat_map escaped bytes.now) f.new }
{
    for byte in bytes {
        write_escaped_byte(*byte, f)?;
    }
    Ok(())
}

// Writes bytes between quotes.
fn write_quoted<W: fmt::Write>(bytes: &[u8], f: &mut fmt::Formatter<W>) -> fmt::Result
    ensures { WritesOnOk W.write_str_gives f.old result (quoted bytes.now) f.new }
{
    f.write_str("\"")?;
    write_escaped_bytes(bytes, f)?;
    f.write_str("\"")
}

// Whether this is a control character.
fn is_control(c: char) -> bool
    ensures { result ≡ is_control c }
{
    let code = c as u32;
    code < 32 || (code >= 127 && code < 160)
}

// Writes a control character by its code.
fn write_control<W: fmt::Write>(c: char, f: &mut fmt::Formatter<W>) -> fmt::Result
    requires { is_control c ≡ true }
    ensures { WritesOnOk W.write_str_gives f.old result (control_escape c) f.new }
{
    let code = c as u32;
    f.write_str("\\u{")?;
    if code >= 16 {
        f.write_char(hex_digit((code / 16) as u8))?;
    }
    f.write_char(hex_digit((code % 16) as u8))?;
    f.write_str("}")
}

// Writes a character as it is, but a control character by its code.
fn write_visible<W: fmt::Write>(c: char, f: &mut fmt::Formatter<W>) -> fmt::Result
    ensures { WritesOnOk W.write_str_gives f.old result (visible_character c) f.new }
{
    if is_control(c) {
        write_control(c, f)
    } else {
        f.write_char(c)
    }
}

// Writes a character of a text between quotes.
fn write_readable<W: fmt::Write>(c: char, f: &mut fmt::Formatter<W>) -> fmt::Result
    ensures { WritesOnOk W.write_str_gives f.old result (readable_character c) f.new }
{
    match c {
        '"' => f.write_str("\\\""),
        '\\' => f.write_str("\\\\"),
        '\0' => f.write_str("\\0"),
        '\t' => f.write_str("\\t"),
        '\n' => f.write_str("\\n"),
        '\r' => f.write_str("\\r"),
        _ => write_visible(c, f),
    }
}

// Writes a text as it stands between quotes.
fn write_readable_text<W: fmt::Write>(text: &str, f: &mut fmt::Formatter<W>) -> fmt::Result
    ensures { WritesOnOk W.write_str_gives f.old result
        (flat_map readable_character (chars text.now)) f.new }
{
    for c in text.chars() {
        write_readable(c, f)?;
    }
    Ok(())
}

// A writer that passes each text on as it stands between quotes.
struct Escaping<'a, W> {
    out: &'a mut fmt::Formatter<W>,
}

impl<W: fmt::Write> fmt::Write for Escaping<'_, W> {
    ghost write_str_gives = { λ s bs t. IsUtf8 bs × (IsPlainFormatter s.out.now →
        HasWritten W.write_str_gives s.out.now (flat_map readable_character (chars bs)) t.out.now)
        × (t.out.ghost_name ≡ s.out.ghost_name) };

    fn write_str(&mut self, s: &str) -> fmt::Result {
        write_readable_text(s, self.out)
    }
}

// Writes what a value prints, as it stands between quotes.
fn write_escaped<T: fmt::Display, W: fmt::Write>(
    value: &T,
    f: &mut fmt::Formatter<W>,
) -> fmt::Result
    ensures { DisplaysOnOk W.write_str_gives f.old result
        (option_map (λ text. flat_map readable_character (chars text)) (T.output value.now)) f.new }
{
    let mut escaping = Escaping { out: f };
    let outcome = escaping.write(value);
    let Escaping { out: _ } = escaping;
    outcome
}

/// Prints what a value prints, between double quotes, as a fault shows a text.
///
/// As Rust's `{:?}` has it, a `"` or a `\` gets a backslash before it, and the zero character, a tab, a line feed and a
/// carriage return are `\0`, `\t`, `\n` and `\r`. Other control characters are `\u{..}` with the hexadecimal digits of
/// their code, and the rest stands as it is.
#[derive(Drop)]
pub struct Quoted<T>(pub T);

impl<T: fmt::Display> fmt::Display for Quoted<T> {
    ghost output = { λ q. option_map quoted_text (T.output q.0) };

    fn fmt<W: fmt::Write>(&self, f: &mut fmt::Formatter<W>) -> fmt::Result {
        f.write_str("\"")?;
        write_escaped(&self.0, f)?;
        f.write_str("\"")
    }
}

/// Prints bytes between double quotes, as data shows a text. The bytes may be no text.
///
/// A `"` or a `\` gets a backslash before it, printable ASCII stands as it is, and each other byte is `\x` and two
/// hexadecimal digits.
#[derive(Clone, Copy)]
pub struct QuotedBytes<'a>(pub &'a [u8]);

impl fmt::Display for QuotedBytes<'_> {
    ghost output = { λ q. Some (quoted q.0.now) };

    fn fmt<W: fmt::Write>(&self, f: &mut fmt::Formatter<W>) -> fmt::Result {
        write_quoted(self.0, f)
    }
}

// Writes a text without control characters.
fn write_visible_text<W: fmt::Write>(text: &str, f: &mut fmt::Formatter<W>) -> fmt::Result
    ensures { WritesOnOk W.write_str_gives f.old result (visible text.now) f.new }
{
    for c in text.chars() {
        write_visible(c, f)?;
    }
    Ok(())
}

/// Prints a text without control characters: each is `\u{..}` with the hexadecimal digits of its code.
#[derive(Clone, Copy)]
pub struct Visible<'a>(pub &'a str);

impl fmt::Display for Visible<'_> {
    ghost output = { λ text. Some (visible text.0.now) };

    fn fmt<W: fmt::Write>(&self, f: &mut fmt::Formatter<W>) -> fmt::Result {
        write_visible_text(self.0, f)
    }
}
