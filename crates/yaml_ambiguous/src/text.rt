//! Whether a text is ambiguous.

ghost use Rattle.std.specs.Char.{to_ascii_lowercase};
ghost use Rattle.std.specs.List.{list_all};
ghost use Rattle.std.specs.Prelude.{◌≡◌, map};
ghost use Rattle.yaml_ambiguous.specs.Ambiguous.{begins_number, behind_sign, is_ambiguous, is_base, is_base_digit};
ghost use Rattle.yaml_ambiguous.specs.Ambiguous.{is_based_body, is_boolean_word, is_like_number, is_of_number};
ghost use Rattle.yaml_ambiguous.specs.Ambiguous.{is_other_word, is_symbol, is_word};

// Whether the text is this word, which has no capital letter, whatever the case of its letters.
fn is_word(text: &[u8], word: &[u8]) -> bool
    requires { map to_ascii_lowercase word.now ≡ word.now }
    ensures { result ≡ is_word word.now text.now }
{
    text.eq_ignore_ascii_case(word)
}

// Whether the text is a word for a boolean.
fn is_boolean_word(text: &[u8]) -> bool
    ensures { result ≡ is_boolean_word text.now }
{
    is_word(text, b"y")
        || is_word(text, b"yes")
        || is_word(text, b"on")
        || is_word(text, b"true")
        || is_word(text, b"n")
        || is_word(text, b"no")
        || is_word(text, b"off")
        || is_word(text, b"false")
}

// Whether the text is a word for null, the key of a merge, or the key of a value.
fn is_other_word(text: &[u8]) -> bool
    ensures { result ≡ is_other_word text.now }
{
    is_word(text, b"null") || is_word(text, b"~") || is_word(text, b"<<") || is_word(text, b"=")
}

// Whether a number may begin with this byte.
fn begins_number(byte: u8) -> bool
    ensures { result ≡ begins_number byte }
{
    byte.is_ascii_digit() || matches!(byte, b'+' | b'-' | b'.')
}

// Whether the byte may stand in a number, a date or a time.
fn is_of_number(byte: u8) -> bool
    ensures { result ≡ is_of_number byte }
{
    byte.is_ascii_digit()
        || matches!(
            byte,
            b'+' | b'-' | b'.' | b',' | b':' | b'_' | b' ' | b'e' | b'E' | b't' | b'T' | b'z' | b'Z'
        )
}

// Whether all bytes may stand in a number, a date or a time.
fn are_of_number(bytes: &[u8]) -> bool
    ensures { result ≡ list_all is_of_number bytes.now }
{
    bytes.iter().all(|byte| is_of_number(*byte))
}

// Whether the text is a number, a date or a time, by its bytes alone.
fn is_like_number(text: &[u8]) -> bool
    ensures { result ≡ is_like_number text.now }
{
    match text {
        [first, rest @ ..] => begins_number(*first) && are_of_number(rest),
        [] => false,
    }
}

// Whether the letter names a base.
fn is_base(byte: u8) -> bool
    ensures { result ≡ is_base byte }
{
    matches!(byte, b'b' | b'B' | b'o' | b'O' | b'x' | b'X')
}

// Whether all bytes are digits of some base, or what parts digits.
fn are_base_digits(bytes: &[u8]) -> bool
    ensures { result ≡ list_all is_base_digit bytes.now }
{
    bytes.iter().all(|byte| byte.is_ascii_hexdigit() || matches!(*byte, b'_' | b','))
}

// Whether the text is digits behind `0` and the letter of their base.
fn is_based_body(text: &[u8]) -> bool
    ensures { result ≡ is_based_body text.now }
{
    match text {
        [first, base, digits @ ..] => {
            *first == b'0' && is_base(*base) && are_base_digits(digits)
        }
        _ => false,
    }
}

// The text behind its sign, if it has one.
fn behind_sign(text: &[u8]) -> &[u8]
    ensures { result.now ≡ behind_sign text.now }
{
    match text {
        [b'+' | b'-', rest @ ..] => rest,
        _ => text,
    }
}

// Whether the text begins with `:`.
fn is_symbol(text: &[u8]) -> bool
    ensures { result ≡ is_symbol text.now }
{
    matches!(text, [b':', ..])
}

/// Whether some reader of YAML takes the text, where it stands without quotes, for something else than a text: a reader
/// of YAML 1.1 `yes`, `12:30` and `1_000`, and others dates and `:name`. Texts that are none here either, as `12`, are
/// ambiguous too.
pub fn is_ambiguous(text: &str) -> bool
    ensures { result ≡ is_ambiguous text.now }
{
    let bytes = text.as_bytes();
    is_boolean_word(bytes)
        || is_other_word(bytes)
        || is_like_number(bytes)
        || is_based_body(behind_sign(bytes))
        || is_symbol(bytes)
}
