//! Characters by how they may be printed.

ghost use Rattle.std.specs.Prelude.{◌≡◌, ◌<◌, false, true};
ghost use Rattle.std.specs.Fmt.{digit_glyph};
ghost use Rattle.yaml_emit.specs.Characters.{is_break, is_printable, is_line_text};

// Whether a line ends behind the character, for some reader of YAML.
pub(crate) fn is_break(letter: char) -> bool
    ensures { result ≡ is_break letter }
{
    matches!(letter, '\n' | '\r' | '\u{85}' | '\u{2028}' | '\u{2029}')
}

// Whether the character may stand as it is. Controls may not, nor tabs, breaks, the mark of the order of bytes and what
// is no character.
pub(crate) fn is_printable(letter: char) -> bool
    ensures { result ≡ is_printable letter }
{
    matches!(
        letter,
        ' '..='~'
            | '\u{A0}'..='\u{2027}'
            | '\u{202A}'..='\u{FEFE}'
            | '\u{FF00}'..='\u{FFFD}'
            | '\u{10000}'..='\u{10FFFF}'
    )
}

// Whether the character may stand as it is, or is a line feed.
pub(crate) fn is_line_text(letter: char) -> bool
    ensures { result ≡ is_line_text letter }
{
    letter == '\n' || is_printable(letter)
}

// The upper case digit of a number below sixteen.
pub(crate) fn hex_digit(digit: u8) -> char
    requires { digit < 16 }
    ensures { result ≡ digit_glyph true digit }
{
    if digit < 10 {
        (b'0' + digit) as char
    } else {
        (b'A' - 10 + digit) as char
    }
}
