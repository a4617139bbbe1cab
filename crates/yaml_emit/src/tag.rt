//! Tags as they are printed.

ghost use Rattle.std.specs.Prelude.{◌≡◌, ◌++◌, OnOk, drop, string_bytes};
ghost use Rattle.std.specs.List.{flat_map};
ghost use Rattle.yaml_emit.specs.Tags.{closing, handle_len, handle_of, is_tag_byte, opening, suffix_of, tag_byte};
ghost use Rattle.yaml_emit.specs.Tags.{printed_tag, tag_len};

use crate::quoted::push_hex;
use std::alloc::AllocError;

/// How a tag begins.
#[derive(Clone, Copy, PartialEq, Eq)]
pub enum Handle {
    /// With `!`: a local tag.
    Local,
    /// With `!!`, which stands for the prefix of YAML's own tags.
    Core,
    /// With `!<`, as the whole tag follows.
    Verbatim,
}

// How a tag begins.
fn handle_of(tag: &[u8]) -> Handle
    ensures { result ≡ handle_of tag.now }
{
    if tag.len() > 1 && tag.starts_with(b"!") {
        return Handle::Local;
    }
    if tag.len() > 18 && tag.starts_with(b"tag:yaml.org,2002:") {
        return Handle::Core;
    }
    Handle::Verbatim
}

// What follows so many bytes.
fn behind(text: &[u8], count: usize) -> &[u8]
    ensures { result.now ≡ drop count text.now }
{
    if count <= text.len() {
        &text[count..]
    } else {
        &text[text.len()..]
    }
}

// What follows the beginning of a tag.
fn suffix_of(handle: Handle, tag: &[u8]) -> &[u8]
    ensures { result.now ≡ suffix_of handle tag.now }
{
    match handle {
        Handle::Local => behind(tag, 1),
        Handle::Core => behind(tag, 18),
        Handle::Verbatim => tag,
    }
}

// Whether the byte stands in a tag as it is.
fn is_tag_byte(byte: u8) -> bool
    ensures { result ≡ is_tag_byte byte }
{
    matches!(
        byte,
        b'a'..=b'z'
            | b'A'..=b'Z'
            | b'0'..=b'9'
            | b'-'
            | b'_'
            | b'.'
            | b'~'
            | b'*'
            | b'\''
            | b'('
            | b')'
            | b';'
            | b'/'
            | b'?'
            | b':'
            | b'@'
            | b'&'
            | b'='
            | b'+'
            | b'$'
    )
}

// Adds a byte of a tag: as it is, or behind `%` by its digits.
fn push_tag_byte(out: &mut String, byte: u8) -> Result<(), AllocError>
    ensures { OnOk result (string_bytes out.new ≡ string_bytes out.old ++ tag_byte byte) }
{
    if byte < 128 && is_tag_byte(byte) {
        return out.push(byte as char);
    }
    out.push('%')?;
    push_hex(out, byte)
}

// Adds what follows the beginning of a tag.
fn push_suffix(out: &mut String, suffix: &[u8]) -> Result<(), AllocError>
    ensures { OnOk result (string_bytes out.new ≡ string_bytes out.old ++ flat_map tag_byte suffix.now) }
{
    for byte in suffix {
        push_tag_byte(out, *byte)?;
    }
    Ok(())
}

// Adds what stands for the beginning of a tag.
fn push_opening(out: &mut String, handle: Handle) -> Result<(), AllocError>
    ensures { OnOk result (string_bytes out.new ≡ string_bytes out.old ++ opening handle) }
{
    match handle {
        Handle::Local => out.push_str("!"),
        Handle::Core => out.push_str("!!"),
        Handle::Verbatim => out.push_str("!<"),
    }
}

// Adds what ends a tag.
fn push_closing(out: &mut String, handle: Handle) -> Result<(), AllocError>
    ensures { OnOk result (string_bytes out.new ≡ string_bytes out.old ++ closing handle) }
{
    match handle {
        Handle::Local | Handle::Core => Ok(()),
        Handle::Verbatim => out.push_str(">"),
    }
}

/// Adds a tag as it stands before a node: a local one behind `!`, one of YAML's own behind `!!`, and any other whole
/// between `!<` and `>`. A byte that may not stand in a tag stands behind `%` by its two digits.
///
/// The only error is want of memory, and part of the tag may then stand in `out`.
pub fn push_tag(out: &mut String, tag: &str) -> Result<(), AllocError>
    ensures { OnOk result (string_bytes out.new ≡ string_bytes out.old ++ printed_tag tag.now) }
{
    let handle = handle_of(tag.as_bytes());
    push_opening(out, handle)?;
    push_suffix(out, suffix_of(handle, tag.as_bytes()))?;
    push_closing(out, handle)
}

// How many bytes stand for the prefix of a tag.
fn handle_len(handle: Handle) -> usize
    ensures { result ≡ handle_len handle }
{
    match handle {
        Handle::Local => 1,
        Handle::Core => 2,
        Handle::Verbatim => 0,
    }
}

// How many bytes a tag has, where what stands for its prefix counts as that.
pub(crate) fn tag_len(tag: &str) -> usize
    ensures { result ≡ tag_len tag.now }
{
    let handle = handle_of(tag.as_bytes());
    handle_len(handle) + suffix_of(handle, tag.as_bytes()).len()
}
