//! Tags of values.

ghost use Rattle.std.specs.Prelude.{◌≡◌, ◌∷◌, ◌↔◌, [], IfOk, IsErrOf, bytes_eq, option_map, string_bytes};
ghost use Rattle.yaml_value.specs.TagText.{behind_byte, name_of_text, text_of_name, unbanged};
ghost use Rattle.yaml_value.specs.View.{tag_text};

use std::alloc::{AllocError, Global};
use std::fmt;
use std::fmt::Write;
use yaml_tree::TreeFault;

/// A local tag. It is told from others by its name, which is what stands behind the `!`.
#[derive(Drop)]
pub struct Tag {
    // With the `!`.
    text: String,
}

// What stands behind a leading `!`.
fn behind_bang(text: &str) -> Option<&str>
    ensures { option_map (λ rest. rest.now) result ≡ behind_byte 33 text.now }
{
    text.strip_prefix('!')
}

// The text without one leading `!` that has something behind it.
fn unbanged(text: &str) -> &str
    ensures { result.now ≡ unbanged text.now }
{
    match behind_bang(text) {
        Some(rest) if !rest.is_empty() => rest,
        _ => text,
    }
}

// The name behind a `!`.
fn banged(alloc: Global, name: &str) -> Result<String, AllocError>
    ensures { IfOk result (λ text. string_bytes text ≡ 33 ∷ name.now) }
{
    let mut text = String::from_str(alloc, "!")?;
    text.push_str(name)?;
    Ok(text)
}

impl Tag {
    /// The tag of this name, which is copied, and may have a `!` in front. Refused by `EmptyTag` where the name is
    /// empty, and by `Memory`.
    pub fn new(alloc: Global, name: &str) -> Result<Tag, TreeFault>
        ensures ok { IfOk result (λ tag. tag_text tag ≡ text_of_name name.now) }
        ensures empty { IsErrOf result TreeFault.EmptyTag ↔ (name.now ≡ []) }
    {
        if name.is_empty() {
            return Err(TreeFault::EmptyTag);
        }
        match banged(alloc, unbanged(name)) {
            Ok(text) => Ok(Tag { text }),
            Err(_) => Err(TreeFault::Memory),
        }
    }

    /// The name, without the `!` before it.
    pub fn name(&self) -> &str
        ensures { result.now ≡ name_of_text (tag_text self.now) }
    {
        behind_bang(self.text.as_str()).unwrap_or("")
    }

    /// The name with the `!` before it.
    pub fn as_str(&self) -> &str
        ensures { result.now ≡ tag_text self.now }
    {
        self.text.as_str()
    }

    /// Whether both have the same name.
    pub fn equals(&self, other: &Tag) -> bool
        ensures { result ≡ bytes_eq (tag_text self.now) (tag_text other.now) }
    {
        self.text.as_bytes() == other.text.as_bytes()
    }

    // The same tag.
    pub(crate) fn copy(&self) -> Result<Tag, AllocError>
        ensures { IfOk result (λ tag. tag_text tag ≡ tag_text self.now) }
    {
        Ok(Tag {
            text: self.text.clone()?,
        })
    }
}

// Whether a character of a tag's name stands as it is in every place where a tag may stand.
fn is_plain(byte: u8) -> bool {
    byte.is_ascii_alphanumeric() || matches!(byte, b'-' | b'_' | b'.' | b'/' | b':')
}

fn is_plain_name(name: &str) -> bool {
    !name.is_empty() && name.as_bytes().iter().all(|byte| is_plain(*byte))
}

fn write_uri<W: fmt::Write>(text: &str, f: &mut fmt::Formatter<W>) -> fmt::Result {
    for byte in text.as_bytes() {
        if is_plain(*byte) {
            f.write_char(*byte as char)?;
        } else {
            write!(f, "%{byte:02X}")?;
        }
    }
    Ok(())
}

/// The tag as YAML has it: `!name`, or between `!<` and `>` where characters of it have to be escaped.
impl fmt::Display for Tag {
    fn fmt<W: fmt::Write>(&self, f: &mut fmt::Formatter<W>) -> fmt::Result {
        let name = self.name();
        if is_plain_name(name) {
            return f.write_str(self.as_str());
        }
        f.write_str("!<")?;
        write_uri(if name == "!" { name } else { self.as_str() }, f)?;
        f.write_str(">")
    }
}

impl fmt::Debug for Tag {
    fn fmt<W: fmt::Write>(&self, f: &mut fmt::Formatter<W>) -> fmt::Result {
        write!(f, "{self}")
    }
}
