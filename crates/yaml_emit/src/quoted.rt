//! Texts in the styles that change them.

ghost use Rattle.std.specs.Prelude.{◌≡◌, ◌++◌, OnOk, false, replicate, string_bytes, true};
ghost use Rattle.std.specs.List.{flat_map};
ghost use Rattle.std.specs.Str.{chars};
ghost use Rattle.yaml_emit.specs.PrintedTexts.{blanks_if, block_piece, block_rest, chomping_hint, code_digits};
ghost use Rattle.yaml_emit.specs.PrintedTexts.{double_quoted, escape_letter, escaped_character, hex_digits};
ghost use Rattle.yaml_emit.specs.PrintedTexts.{indentation_hint};
ghost use Rattle.yaml_emit.specs.PrintedTexts.{line_end, literal, quote_doubled, single_piece, single_quoted};
ghost use Rattle.yaml_emit.specs.PrintedTexts.{single_rest};

use crate::character::{hex_digit, is_printable};
use crate::fit::{begins_with, ends_with};
use std::alloc::AllocError;

// Adds so many blanks.
pub(crate) fn push_blanks(out: &mut String, count: usize) -> Result<(), AllocError>
    ensures { OnOk result (string_bytes out.new ≡ string_bytes out.old ++ replicate count 32) }
{
    for _ in 0..count {
        out.push(' ')?;
    }
    Ok(())
}

// Adds so many blanks where a line feed stands before.
fn push_blanks_if(out: &mut String, broken: bool, count: usize) -> Result<(), AllocError>
    ensures { OnOk result (string_bytes out.new ≡ string_bytes out.old ++ blanks_if broken count) }
{
    if broken {
        return push_blanks(out, count);
    }
    Ok(())
}

// Adds a character but a line feed as it stands between single quotes.
fn push_quote_doubled(out: &mut String, letter: char) -> Result<(), AllocError>
    ensures { OnOk result (string_bytes out.new ≡ string_bytes out.old ++ quote_doubled letter) }
{
    if letter == '\'' {
        return out.push_str("''");
    }
    out.push(letter)
}

// Adds a character as it stands between single quotes, where a line feed stands before it or not.
fn push_single_piece(
    out: &mut String,
    letter: char,
    broken: bool,
    indent: usize,
) -> Result<(), AllocError>
    ensures { OnOk result (string_bytes out.new ≡ string_bytes out.old ++ single_piece indent broken letter) }
{
    if letter == '\n' {
        return out.push_str(if broken { "\n" } else { "\n\n" });
    }
    push_blanks_if(out, broken, indent)?;
    push_quote_doubled(out, letter)
}

// Adds what stands between single quotes.
fn push_between_single(out: &mut String, text: &str, indent: usize) -> Result<(), AllocError>
    ensures { OnOk result (string_bytes out.new ≡ string_bytes out.old ++ single_rest indent false (chars text.now)) }
{
    let mut broken = false;
    for letter in text.chars() {
        push_single_piece(out, letter, broken, indent)?;
        broken = letter == '\n';
    }
    push_blanks_if(out, broken, indent)?;
    Ok(())
}

// Adds the text between single quotes. Each quote in it is doubled; a run of line feeds has one more, and the
// indentation behind it.
pub(crate) fn push_single_quoted(
    out: &mut String,
    text: &str,
    indent: usize,
) -> Result<(), AllocError>
    ensures { OnOk result (string_bytes out.new ≡ string_bytes out.old ++ single_quoted indent text.now) }
{
    out.push('\'')?;
    push_between_single(out, text, indent)?;
    out.push('\'')
}

// The letter behind a backslash that stands for a character.
fn escape_letter(letter: char) -> Option<char>
    ensures { result ≡ escape_letter letter }
{
    match letter {
        '\0' => Some('0'),
        '\u{7}' => Some('a'),
        '\u{8}' => Some('b'),
        '\t' => Some('t'),
        '\n' => Some('n'),
        '\u{B}' => Some('v'),
        '\u{C}' => Some('f'),
        '\r' => Some('r'),
        '\u{1B}' => Some('e'),
        '"' => Some('"'),
        '\\' => Some('\\'),
        '\u{85}' => Some('N'),
        '\u{2028}' => Some('L'),
        '\u{2029}' => Some('P'),
        _ => None,
    }
}

// Adds a byte by its two hexadecimal digits.
pub(crate) fn push_hex(out: &mut String, byte: u8) -> Result<(), AllocError>
    ensures { OnOk result (string_bytes out.new ≡ string_bytes out.old ++ hex_digits byte) }
{
    out.push(hex_digit(byte / 16))?;
    out.push(hex_digit(byte % 16))
}

// Adds the code of a character: two digits behind `x`, four behind `u` or eight behind `U`.
fn push_code(out: &mut String, letter: char) -> Result<(), AllocError>
    ensures { OnOk result (string_bytes out.new ≡ string_bytes out.old ++ code_digits letter) }
{
    let code = letter as u32;
    if code < 0x100 {
        out.push('x')?;
        return push_hex(out, code as u8);
    }
    if code < 0x10000 {
        out.push('u')?;
        push_hex(out, (code / 0x100) as u8)?;
        return push_hex(out, (code % 0x100) as u8);
    }
    out.push_str("U00")?;
    push_hex(out, (code / 0x10000 % 0x100) as u8)?;
    push_hex(out, (code / 0x100 % 0x100) as u8)?;
    push_hex(out, (code % 0x100) as u8)
}

// Adds a character as it stands between double quotes.
fn push_escaped(out: &mut String, letter: char) -> Result<(), AllocError>
    ensures { OnOk result (string_bytes out.new ≡ string_bytes out.old ++ escaped_character letter) }
{
    if let Some(short) = escape_letter(letter) {
        out.push('\\')?;
        return out.push(short);
    }
    if is_printable(letter) {
        return out.push(letter);
    }
    out.push('\\')?;
    push_code(out, letter)
}

// Adds what stands between double quotes.
fn push_between_double(out: &mut String, text: &str) -> Result<(), AllocError>
    ensures { OnOk result (string_bytes out.new ≡ string_bytes out.old ++ flat_map escaped_character (chars text.now)) }
{
    for letter in text.chars() {
        push_escaped(out, letter)?;
    }
    Ok(())
}

// Adds the text between double quotes, in one line.
pub(crate) fn push_double_quoted(out: &mut String, text: &str) -> Result<(), AllocError>
    ensures { OnOk result (string_bytes out.new ≡ string_bytes out.old ++ double_quoted text.now) }
{
    out.push('"')?;
    push_between_double(out, text)?;
    out.push('"')
}

// Adds the digit of the indentation, where the text begins with a blank or a line feed.
fn push_indentation_hint(out: &mut String, text: &[u8]) -> Result<(), AllocError>
    ensures { OnOk result (string_bytes out.new ≡ string_bytes out.old ++ indentation_hint text.now) }
{
    if begins_with(text, b' ') || begins_with(text, b'\n') {
        return out.push('2');
    }
    Ok(())
}

// Adds `-` where the text ends with no line feed, and `+` where it ends with more than one, or is one.
fn push_chomping_hint(out: &mut String, text: &[u8]) -> Result<(), AllocError>
    ensures { OnOk result (string_bytes out.new ≡ string_bytes out.old ++ chomping_hint text.now) }
{
    if !ends_with(text, b'\n') {
        return out.push('-');
    }
    if text.len() == 1 || ends_with(&text[..text.len() - 1], b'\n') {
        return out.push('+');
    }
    Ok(())
}

// Adds a character of a block, at the beginning of a line or not.
fn push_block_piece(
    out: &mut String,
    letter: char,
    begins: bool,
    indent: usize,
) -> Result<(), AllocError>
    ensures { OnOk result (string_bytes out.new ≡ string_bytes out.old ++ block_piece indent begins letter) }
{
    push_blanks_if(out, begins && letter != '\n', indent)?;
    out.push(letter)
}

// Adds the line feed of a line, unless one begins there.
fn push_line_end(out: &mut String, begins: bool) -> Result<(), AllocError>
    ensures { OnOk result (string_bytes out.new ≡ string_bytes out.old ++ line_end begins) }
{
    if begins {
        return Ok(());
    }
    out.push('\n')
}

// Adds the lines of a block.
fn push_block(out: &mut String, text: &str, indent: usize) -> Result<(), AllocError>
    ensures { OnOk result (string_bytes out.new ≡ string_bytes out.old ++ block_rest indent true (chars text.now)) }
{
    let mut begins = true;
    for letter in text.chars() {
        push_block_piece(out, letter, begins, indent)?;
        begins = letter == '\n';
    }
    push_line_end(out, begins)?;
    Ok(())
}

// Adds the text as a literal block with its last line feed: each line that isn't empty behind the indentation.
pub(crate) fn push_literal(out: &mut String, text: &str, indent: usize) -> Result<(), AllocError>
    ensures { OnOk result (string_bytes out.new ≡ string_bytes out.old ++ literal indent text.now) }
{
    out.push('|')?;
    push_indentation_hint(out, text.as_bytes())?;
    push_chomping_hint(out, text.as_bytes())?;
    out.push('\n')?;
    push_block(out, text, indent)
}
