//! What single bytes mean.

ghost use Rattle.std.specs.Prelude.{◌≡◌, ◌-◌, ◌≤◌, None, Some, length, nat_lt, if◌then◌else◌};
ghost use Rattle.std.specs.Char.{digit_value};

// Bytes that end no line: how many they are, and how many characters begin among them.
#[derive(Clone, Copy)]
pub(crate) struct Part {
    pub(crate) bytes: usize,
    pub(crate) characters: usize,
    ghost fewer: { characters ≤ bytes },
}

impl Part {
    // The same but for so many bytes at the end, each a character.
    pub(crate) fn without(self, count: usize) -> Part
        ensures { result.bytes ≡ self.bytes - count }
    {
        Part {
            bytes: self.bytes.saturating_sub(count),
            characters: self.characters.saturating_sub(count),
        }
    }
}

// Runs of bytes that stand for themselves, up to a byte that may not.
#[derive(Clone, Copy, PartialEq, Eq)]
pub(crate) enum Run {
    // Up to a line break.
    Line,
    // In a plain scalar outside of brackets.
    Plain,
    // In a plain scalar within brackets.
    Flow,
    // Between single quotes.
    Single,
    // Between double quotes.
    Double,
}

// Whether a line break may begin with this byte.
pub(crate) fn may_break(byte: u8) -> bool {
    matches!(byte, b'\n' | b'\r' | 0xC2 | 0xE2)
}

// Whether this byte is a space or a tab.
pub(crate) fn is_blank(byte: u8) -> bool {
    byte == b' ' || byte == b'\t'
}

// Whether a token begins with this byte that is a printed character of ASCII: neither a blank, a comment nor a line
// break.
#[inline(always)]
pub(crate) fn is_ascii_start(byte: u8) -> bool {
    matches!(byte, b'!' | b'"' | b'$'..=b'~')
}

// Whether this byte has a meaning of its own within brackets.
pub(crate) fn is_flow_indicator(byte: u8) -> bool {
    matches!(byte, b',' | b'[' | b']' | b'{' | b'}')
}

impl Run {
    // Whether this byte ends the run.
    pub(crate) fn is_end(self, byte: u8) -> bool {
        match self {
            Run::Line => may_break(byte),
            Run::Plain => may_break(byte) || is_blank(byte) || byte == b':',
            Run::Flow => {
                may_break(byte) || is_blank(byte) || byte == b':' || is_flow_indicator(byte)
            }
            Run::Single => may_break(byte) || byte == b'\'',
            Run::Double => may_break(byte) || byte == b'"' || byte == b'\\',
        }
    }

    // The bytes that come before the first that ends the run.
    pub(crate) fn part_of(self, bytes: &[u8]) -> Part
        ensures { result.bytes ≤ length bytes.now }
    {
        let mut seen: u8 = 0;
        for (index, byte) in bytes.iter().enumerate() {
            if self.is_end(*byte) {
                return part_before(bytes, index, seen);
            }
            seen |= *byte;
        }
        part_before(bytes, bytes.len(), seen)
    }
}

// The first bytes, which are so many; `seen` has the bits of all of them.
fn part_before(bytes: &[u8], count: usize, seen: u8) -> Part
    requires { count ≤ length bytes.now }
    ensures { result.bytes ≡ count }
{
    let characters = if seen < 0x80 {
        count
    } else {
        characters_in(&bytes[..count])
    };
    Part {
        bytes: count,
        characters,
    }
}

// How many blanks end the bytes.
pub(crate) fn blanks_at_end(bytes: &[u8]) -> usize
    ensures { result ≤ length bytes.now }
{
    for count in 0..bytes.len() {
        if !is_blank(bytes[bytes.len() - 1 - count]) {
            return count;
        }
    }
    bytes.len()
}

// How many characters begin among the bytes.
fn characters_in(bytes: &[u8]) -> usize
    ensures { result ≤ length bytes.now }
{
    let mut count: usize = 0;
    for byte in bytes {
        if !is_continuation(*byte) {
            count = count.saturating_add(1);
        }
    }
    count.min(bytes.len())
}

// How many spaces begin the bytes; tabs count where `tabs` says so.
pub(crate) fn spaces_in(bytes: &[u8], tabs: bool) -> usize
    ensures { result ≤ length bytes.now }
{
    for (index, byte) in bytes.iter().enumerate() {
        if !(*byte == b' ' || (tabs && *byte == b'\t')) {
            return index;
        }
    }
    bytes.len()
}

// Whether this byte goes on with a character that began before it.
fn is_continuation(byte: u8) -> bool {
    byte & 0xC0 == 0x80
}

// Whether this byte may stand in a name.
fn is_word(byte: u8) -> bool {
    byte.is_ascii_alphanumeric() || byte == b'_' || byte == b'-'
}

// How many bytes begin the bytes that may stand in a name.
pub(crate) fn word_in(bytes: &[u8]) -> usize
    ensures { result ≤ length bytes.now }
{
    for (index, byte) in bytes.iter().enumerate() {
        if !is_word(*byte) {
            return index;
        }
    }
    bytes.len()
}

// Whether this byte may stand in a tag; `wide` where it stands between angle brackets or in a directive.
pub(crate) fn is_uri(byte: u8, wide: bool) -> bool {
    let mark = matches!(
        byte,
        b';' | b'/' | b'?' | b':' | b'@' | b'&' | b'=' | b'+' | b'$' | b'.' | b'%' | b'!' | b'~'
    );
    let more = matches!(byte, b'*' | b'\'' | b'(' | b')');
    let bracket = matches!(byte, b',' | b'[' | b']');
    is_word(byte) || mark || more || (wide && bracket)
}

// The value of a hexadecimal digit.
pub(crate) fn hex_value(byte: u8) -> Option<u32>
    ensures { result ≡ (if nat_lt (digit_value byte) 16 then Some (digit_value byte) else None) }
{
    (byte as char).to_digit(16)
}
