//! Nodes without parts: scalars and empty collections.

ghost use Rattle.std.specs.Prelude.{◌≡◌, ◌++◌, ◌≢◌, [], IfOk, OnOk, false, string_bytes};
ghost use Rattle.std.specs.Option.{option_map};
ghost use Rattle.yaml_base.specs.EmitEvents.{tag_bytes};
ghost use Rattle.yaml_base.specs.EmitTree.{emit_scalar_node};
ghost use Rattle.yaml_emit.specs.Leaves.{gap, is_nothing, leaf_node};
ghost use Rattle.yaml_emit.specs.Places.{behind_tag, tag_in_line};
ghost use Rattle.yaml_emit.specs.Scalars.{in_style, styled_scalar};
ghost use Rattle.yaml_emit.specs.StreamTexts.{is_literal, is_short, is_simple_key, leaf_end, leaf_text, node_text};
ghost use Rattle.yaml_emit.specs.StreamTexts.{placed_scalar, tag_or_empty};

use crate::fit::has_break;
use crate::open::{Lead, Place, push_blank};
use crate::quoted::{push_double_quoted, push_literal, push_single_quoted};
use crate::style::{Style, chosen_style};
use crate::tag::{push_tag, tag_len};
use std::alloc::{AllocError, Global};
use yaml_base::emitter::{AskedStyle, EmitScalar};

// A node without parts, but for its tag.
#[derive(Clone, Copy)]
pub(crate) enum Content<'a> {
    // A text in a style that is asked for.
    Scalar(&'a str, AskedStyle),
    // An empty sequence.
    NoItems,
    // An empty mapping.
    NoPairs,
}

// A node without parts.
#[derive(Clone, Copy)]
pub(crate) struct Leaf<'a> {
    pub(crate) tag: Option<&'a str>,
    pub(crate) content: Content<'a>,
}

// The longest key that stands in a line with its value, in bytes with its tag.
const LONGEST_KEY: usize = 128;

// A tag that is lent.
pub(crate) fn lent_tag(tag: &Option<String>) -> Option<&str>
    ensures { option_map (λ t. t.now) result ≡ tag_bytes tag.now }
{
    match tag {
        Some(tag) => Some(tag.as_str()),
        None => None,
    }
}

// A copy of a tag.
pub(crate) fn copied_tag(alloc: Global, tag: &Option<String>) -> Result<Option<String>, AllocError>
    ensures { IfOk result (λ copy. tag_bytes copy ≡ tag_bytes tag.now) }
{
    match tag {
        Some(tag) => Ok(Some(String::from_str(alloc, tag.as_str())?)),
        None => Ok(None),
    }
}

// The text of a tag, or nothing.
pub(crate) fn tag_text(tag: Option<&str>) -> &str
    ensures { result.now ≡ tag_or_empty (option_map (λ t. t.now) tag.entry) }
{
    match tag {
        Some(tag) => tag,
        None => "",
    }
}

// Whether a tag and a text of so many bytes are short enough for a key in a line with its value.
fn is_short(tag: &str, count: usize) -> bool
    ensures { result ≡ is_short tag.now count }
{
    tag_len(tag).saturating_add(count) <= LONGEST_KEY
}

// Adds a tag in its line, if there is one, and gives what stands before the rest of its node.
pub(crate) fn push_tag_in_line(out: &mut String, lead: Lead, tag: &str) -> Result<Lead, AllocError>
    ensures printed { OnOk result (string_bytes out.new ≡ string_bytes out.old ++ tag_in_line lead tag.now) }
    ensures lead { IfOk result (λ behind. behind ≡ behind_tag lead tag.now) }
{
    if tag.is_empty() {
        return Ok(lead);
    }
    push_blank(out, lead)?;
    push_tag(out, tag)?;
    Ok(Lead::Text)
}

// Whether nothing is printed of a text in this style.
fn is_nothing(style: Style, text: &str) -> bool
    ensures { result ≡ is_nothing style text.now }
{
    match style {
        Style::Plain => text.is_empty(),
        Style::SingleQuoted | Style::DoubleQuoted | Style::Literal => false,
    }
}

// Whether the style is the literal block's.
fn is_literal(style: Style) -> bool
    ensures { result ≡ is_literal style }
{
    matches!(style, Style::Literal)
}

// Adds what stands before a text in the line. No text needs nothing.
fn push_gap(out: &mut String, lead: Lead, nothing: bool) -> Result<(), AllocError>
    ensures { OnOk result (string_bytes out.new ≡ string_bytes out.old ++ gap lead nothing) }
{
    if nothing {
        return Ok(());
    }
    push_blank(out, lead)
}

// Adds what ends a leaf: `:` behind a key in a line, else the line's end, which a literal block has.
fn push_leaf_end(out: &mut String, key: bool, literal: bool) -> Result<(), AllocError>
    ensures { OnOk result (string_bytes out.new ≡ string_bytes out.old ++ leaf_end key literal) }
{
    if key {
        return out.push(':');
    }
    if literal {
        return Ok(());
    }
    out.push('\n')
}

// Adds an empty collection as these brackets.
fn push_brackets(
    out: &mut String,
    place: Place,
    tag: &str,
    brackets: &str,
) -> Result<(), AllocError>
    requires { brackets.now ≢ [] }
    ensures { OnOk result (string_bytes out.new
        ≡ string_bytes out.old ++ leaf_text place tag.now brackets.now false) }
{
    let lead = push_tag_in_line(out, place.lead, tag)?;
    push_gap(out, lead, false)?;
    out.push_str(brackets)?;
    push_leaf_end(out, place.key, false)
}

// Adds a scalar in its place.
#[tactic(auto, using(crate::proofs::LeafLaws::scalar_is))]
fn push_scalar_in(
    out: &mut String,
    place: Place,
    tag: &str,
    text: &str,
    asked: AskedStyle,
) -> Result<(), AllocError>
    ensures { OnOk result (string_bytes out.new
        ≡ string_bytes out.old ++ placed_scalar place tag.now text.now asked) }
{
    let lead = push_tag_in_line(out, place.lead, tag)?;
    let style = chosen_style(text, asked, place.key);
    push_gap(out, lead, is_nothing(style, text))?;
    push_in_style(out, text, style, place.column.max(2))?;
    push_leaf_end(out, place.key, is_literal(style))?;
    Ok(())
}

impl<'a> Leaf<'a> {
    // A scalar.
    pub(crate) fn scalar(scalar: &'a EmitScalar) -> Leaf<'a>
        ensures { leaf_node result ≡ emit_scalar_node (tag_bytes scalar.now.tag)
            (string_bytes scalar.now.value) scalar.now.style }
    {
        Leaf {
            tag: lent_tag(&scalar.tag),
            content: Content::Scalar(scalar.value.as_str(), scalar.style),
        }
    }

    // Whether the node may be a key in a line with its value.
    pub(crate) fn is_simple(&self) -> bool
        ensures { result ≡ is_simple_key (leaf_node self.now) }
    {
        let tag = tag_text(self.tag);
        match self.content {
            Content::Scalar(text, _) => !has_break(text) && is_short(tag, text.len()),
            Content::NoItems | Content::NoPairs => is_short(tag, 0),
        }
    }

    // Adds the node in its place.
    pub(crate) fn push(&self, out: &mut String, place: Place) -> Result<(), AllocError>
        ensures { OnOk result (string_bytes out.new
            ≡ string_bytes out.old ++ node_text place (leaf_node self.now)) }
    {
        let tag = tag_text(self.tag);
        match self.content {
            Content::Scalar(text, asked) => push_scalar_in(out, place, tag, text, asked),
            Content::NoItems => push_brackets(out, place, tag, "[]"),
            Content::NoPairs => push_brackets(out, place, tag, "{}"),
        }
    }
}

// Adds a text in a style.
fn push_in_style(
    out: &mut String,
    text: &str,
    style: Style,
    indent: usize,
) -> Result<(), AllocError>
    ensures { OnOk result (string_bytes out.new ≡ string_bytes out.old ++ in_style indent style text.now) }
{
    match style {
        Style::Plain => out.push_str(text),
        Style::SingleQuoted => push_single_quoted(out, text, indent),
        Style::DoubleQuoted => push_double_quoted(out, text),
        Style::Literal => push_literal(out, text, indent),
    }
}

/// Adds a text as a scalar, in the style that is asked for where the text may stand in it, else between quotes. A key
/// in a line with its value is no block, and stands between quotes if it is empty. Further lines stand behind so many
/// blanks. A literal block ends with a line feed, and no other style does.
///
/// The only error is want of memory, and part of the scalar may then stand in `out`.
pub fn push_scalar(
    out: &mut String,
    text: &str,
    asked: AskedStyle,
    key: bool,
    indent: usize,
) -> Result<(), AllocError>
    ensures { OnOk result (string_bytes out.new ≡ string_bytes out.old ++ styled_scalar indent asked key text.now) }
{
    push_in_style(out, text, chosen_style(text, asked, key), indent)
}
