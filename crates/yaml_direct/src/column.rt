//! Whether the last line of a text reaches a column.
#![tactic(auto)]

ghost use Rattle.std.specs.Prelude.{◌≡◌, ◌==◌, ◌<◌, ◌&&◌, length, nat_le, not};
ghost use Rattle.yaml_base.specs.Places.{begins_character, ends_line};
ghost use Rattle.yaml_grammar.specs.Bytes.{column};

// Whether a line ends with the byte in this place.
fn ends_line(text: &[u8], place: usize) -> bool
    requires { place < length text.now }
    ensures { result ≡ ends_line text.now place }
{
    match text[place] {
        b'\n' => true,
        b'\r' => place + 1 == text.len() || text[place + 1] != b'\n',
        0x85 => place >= 1 && text[place - 1] == 0xC2,
        0xA8 | 0xA9 => place >= 2 && text[place - 1] == 0x80 && text[place - 2] == 0xE2,
        _ => false,
    }
}

// Whether a character that counts begins with the byte in this place.
fn begins_character(text: &[u8], place: usize) -> bool
    requires { place < length text.now }
    ensures { result ≡ begins_character text.now place }
{
    let byte = text[place];
    if place == 0 && byte == 0xEF {
        return !(text.len() >= 3 && text[1] == 0xBB && text[2] == 0xBF);
    }
    byte < 0x80 || byte > 0xBF
}

// Whether the last line has a character, and so many.
#[inline(never)]
pub(crate) fn reaches_column(text: &[u8], least: usize) -> bool
    ensures { result
        ≡ (not (column text.now (length text.now) == 0) && nat_le least (column text.now (length text.now))) }
{
    let mut place = text.len();
    let mut left = if least == 0 { 1 } else { least };
    'line: while place > 0 && !ends_line(text, place - 1) {
        place -= 1;
        if begins_character(text, place) {
            if left == 1 {
                return true;
            }
            left -= 1;
        }
    }
    false
}
