//! The tag that may stand before a node.

ghost use Rattle.std.specs.Option.{option_map};
ghost use Rattle.std.specs.Prelude.{◌≡◌, ◌≢◌, ◌+◌, ◌<◌, ◌≤◌, IfOk, IfSome, None, Some, drop, false, is_some, length};
ghost use Rattle.std.specs.Prelude.{slice_range, true};
ghost use Rattle.yaml_base.specs.QuotedLines.{none};
ghost use Rattle.yaml_direct.specs.Tags.{IsSimple, SaysOctet, Unescapes, closed_end, handle_as};
ghost use Rattle.yaml_grammar.specs.Bytes.{at, is_text};
ghost use Rattle.yaml_grammar.specs.Names.{checked, count_while, decoded, ends_tag, handle_of, is_local, is_tag_byte};
ghost use Rattle.yaml_grammar.specs.Names.{is_whole, opening_size, prefix_of, tag_at, tag_of};

use crate::byte::{at, is_gap};
use crate::escape::hex_value;
use crate::properties::is_word;
use memchr::memchr;
use simdutf8::compat::from_utf8;
use std::alloc::{AllocError, Global};
use yaml_base::Tag;

// Whether this byte may stand in the text of a tag; `wide` where that stands between angle brackets.
fn is_tag_byte(byte: u8, wide: bool) -> bool
    ensures { result ≡ is_tag_byte wide byte }
{
    let mark = matches!(
        byte,
        b';' | b'/'
            | b'?'
            | b':'
            | b'@'
            | b'&'
            | b'='
            | b'+'
            | b'$'
            | b'.'
            | b'~'
            | b'*'
            | b'\''
            | b'('
            | b')'
    );
    is_word(byte) || mark || byte == b'%' || (wide && matches!(byte, b',' | b'[' | b']' | b'!'))
}

// Where the text of a tag ends that begins here.
fn tag_text_end(text: &[u8], wide: bool, from: usize) -> usize
    requires { from ≤ length text.now }
    ensures forward { from ≤ result }
    ensures within { result ≤ length text.now }
    ensures read { result ≡ from + count_while (is_tag_byte wide) (drop from text.now) }
{
    for (count, byte) in text[from..].iter().enumerate() {
        if !is_tag_byte(*byte, wide) {
            return from + count;
        }
    }
    text.len()
}

// The octet that two digits stand for here, if they do.
fn octet_at(text: &[u8], place: usize) -> Option<u8>
    requires { place ≤ length text.now }
    ensures within { IfSome result (λ _. place + 2 ≤ length text.now) }
    ensures read { SaysOctet text.now place result }
{
    let first = hex_value(at(text, place))?;
    let second = hex_value(at(text, place + 1))?;
    Some((first * 16 + second) as u8)
}

// Puts the text of a tag behind another, each `%` and two digits as the octet that they stand for. It answers whether
// two digits are behind each.
fn push_unescaped(out: &mut Vec<u8>, written: &[u8]) -> Result<bool, AllocError>
    ensures read { IfOk result (λ due. due ≡ true → Unescapes written.now out.old.items out.new.items) }
    ensures missed { IfOk result (λ due. due ≡ false → decoded none written.now ≡ None) }
{
    let mut place = 0;
    'bytes: while place < written.len() {
        if written[place] != b'%' {
            out.push(written[place])?;
            place += 1;
        } else {
            let Some(octet) = octet_at(written, place + 1) else {
                return Ok(false);
            };
            out.push(octet)?;
            place += 3;
        }
    }
    Ok(true)
}

// Whether these are the bytes of a tag: text in which no character 0 stands.
fn is_tag_text(bytes: &[u8]) -> bool
    ensures { result ≡ is_some (checked bytes.now) }
{
    match memchr(0, bytes) {
        Some(_) => false,
        None => match from_utf8(bytes) {
            Ok(_) => true,
            Err(_) => false,
        },
    }
}

// The tag that is both parts together, if the second is in due form.
pub(crate) fn joined(alloc: Global, prefix: &[u8], suffix: &[u8]) -> Result<Option<Tag>, AllocError>
    requires { IsSimple suffix.now }
    ensures { IfOk result (λ tag. tag ≡ tag_of prefix.now suffix.now) }
{
    let mut text = Vec::from_slice(alloc, prefix)?;
    match memchr(b'%', suffix) {
        None => {
            text.extend_from_slice(suffix)?;
            Ok(Some(Tag::new(text)))
        }
        Some(_) => {
            if !push_unescaped(&mut text, suffix)? {
                return Ok(None);
            }
            if !is_tag_text(&text.as_slice()[prefix.len()..]) {
                return Ok(None);
            }
            Ok(Some(Tag::new(text)))
        }
    }
}

// How a tag is written.
#[derive(Clone, Copy, PartialEq, Eq)]
pub(crate) enum Handle {
    // `!<x>`, which is x.
    Verbatim,
    // `!!x`, which is one of YAML's own.
    Core,
    // `!x`, which is itself.
    Local,
}

// By the byte behind its `!`.
fn handle_of(byte: u8) -> Handle
    ensures { handle_as result ≡ handle_of byte }
{
    match byte {
        b'<' => Handle::Verbatim,
        b'!' => Handle::Core,
        _ => Handle::Local,
    }
}

impl Handle {
    // What stands for its beginning.
    pub(crate) fn prefix(self) -> &'static [u8]
        ensures { result.now ≡ prefix_of (handle_as self) }
    {
        match self {
            Handle::Verbatim => b"",
            Handle::Core => b"tag:yaml.org,2002:",
            Handle::Local => b"!",
        }
    }

    // How many bytes come before its text.
    fn opening_size(self) -> usize
        ensures { result ≡ opening_size (handle_as self) }
    {
        match self {
            Handle::Verbatim | Handle::Core => 2,
            Handle::Local => 1,
        }
    }

    // Whether its text stands between angle brackets.
    fn is_whole(self) -> bool
        ensures { result ≡ is_whole (handle_as self) }
    {
        match self {
            Handle::Verbatim => true,
            Handle::Core | Handle::Local => false,
        }
    }

    // Whether its text may be missing.
    fn is_local(self) -> bool
        ensures { result ≡ is_local (handle_as self) }
    {
        match self {
            Handle::Local => true,
            Handle::Verbatim | Handle::Core => false,
        }
    }
}

// Whether a tag may end here.
fn ends_tag(text: &[u8], flow: bool, place: usize) -> bool
    ensures { is_text text.now ≡ true → result ≡ ends_tag flow (at text.now place) }
{
    is_gap(text, place) || (flow && at(text, place) == b',')
}

// A tag: how it is written, where its text begins and ends, and where it does.
#[derive(Clone, Copy)]
pub(crate) struct WrittenTag {
    pub(crate) handle: Handle,
    pub(crate) from: usize,
    pub(crate) text_end: usize,
    pub(crate) end: usize,
}

// The place behind a tag whose text ends here, if its closing bracket stands there where it has one.
fn closed_end(text: &[u8], handle: Handle, stop: usize) -> Option<usize>
    requires { stop ≤ length text.now }
    ensures within { IfSome result (λ end. (stop ≤ end) × (end ≤ length text.now)) }
    ensures read { result ≡ closed_end text.now (handle_as handle) stop }
{
    if !handle.is_whole() {
        return Some(stop);
    }
    if at(text, stop) == b'>' {
        Some(stop + 1)
    } else {
        None
    }
}

// The tag whose `!` stands here, if it has a due form.
pub(crate) fn tag_at(text: &[u8], flow: bool, from: usize) -> Option<WrittenTag>
    requires { from < length text.now }
    ensures part { IfSome result (λ tag. (from < tag.end) × (tag.from ≤ tag.text_end)
        × (tag.text_end ≤ length text.now) × (tag.end ≤ length text.now)) }
    ensures found { is_text text.now ≡ true → IfSome result (λ tag. tag_at text.now flow from
        ≡ option_map (λ t. (t, tag.end))
        (tag_of (prefix_of (handle_as tag.handle)) (slice_range text.now tag.from tag.text_end))) }
    ensures simple { IfSome result (λ tag. IsSimple (slice_range text.now tag.from tag.text_end)) }
    ensures missed { is_text text.now ≡ true → result ≡ None → tag_at text.now flow from ≡ None }
{
    let handle = handle_of(at(text, from + 1));
    let start = from + handle.opening_size();
    let stop = tag_text_end(text, handle.is_whole(), start);
    if stop == start && !handle.is_local() {
        return None;
    }
    let end = closed_end(text, handle, stop)?;
    if !ends_tag(text, flow, end) {
        return None;
    }
    Some(WrittenTag {
        handle,
        from: start,
        text_end: stop,
        end,
    })
}
