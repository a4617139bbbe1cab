//! What a look at each event of a text finds, that one reading alone does not tell.

use crate::walk::Walk;
use std::alloc::{AllocError, Global};
use yaml_base::{Cause, EntryKey, Error, Mark, Place, Words};
use yaml_parse::{Parsed, parse};
use yaml_scan::Fault;

/// A key that stands twice in a mapping.
#[derive(Drop)]
pub struct Repeated {
    /// Where the mapping begins.
    pub mapping: Mark,
    /// The key.
    pub key: String,
    /// Where the key stands first.
    pub first: Mark,
    /// Where it stands again.
    pub second: Mark,
}

/// An alias whose anchor no node before it has.
#[derive(Drop)]
pub struct Unanchored {
    /// Where the alias stands.
    pub mark: Mark,
    /// The name of the anchor.
    pub name: String,
    /// The anchor before it whose name is most like that, if one is.
    pub nearest: Option<String>,
}

/// What a look at each event of a text finds.
#[derive(Drop)]
pub struct Findings {
    /// The keys that stand twice.
    pub repeated: Vec<Repeated>,
    /// The aliases without an anchor.
    pub unanchored: Vec<Unanchored>,
    /// Where the second document begins, if there is one.
    pub second: Option<Mark>,
    /// The parser's fault in parts, if it met one.
    pub fault: Option<Fault>,
}

fn is_same(one: Mark, other: Mark) -> bool {
    one.index() == other.index()
}

// Whether a fault tells of a key that stands twice.
fn tells_of_key(fault: &Error, key: &str) -> bool {
    match fault.cause() {
        Cause::DuplicateEntry {
            key: EntryKey::String(text),
            ..
        } => text.as_str() == key,
        Cause::DuplicateEntry { .. } => true,
        Cause::Custom { text, .. } => text.as_str().starts_with("duplicate entry "),
        _ => false,
    }
}

impl Findings {
    /// The key of which a fault tells that it stands twice.
    pub(crate) fn repeated_by(&self, fault: &Error) -> Option<&Repeated> {
        let index = fault.location()?.index() as u64;
        self.repeated.iter().find(|repeated| {
            (repeated.second.index() == index || repeated.mapping.index() == index)
                && tells_of_key(fault, repeated.key.as_str())
        })
    }

    /// The alias without an anchor that stands at a mark.
    pub(crate) fn unanchored_at(&self, mark: Mark) -> Option<&Unanchored> {
        self.unanchored
            .iter()
            .find(|alias| is_same(alias.mark, mark))
    }
}

// What the events of a text show.
fn findings_in(alloc: Global, parsed: &Parsed<'_>) -> Result<Findings, AllocError> {
    let mut walk = Walk::new(alloc);
    for (event, mark) in parsed.events.iter() {
        walk.pass(event, *mark)?;
    }
    Ok(walk.finish(parsed.found))
}

/// What a look at each event of a text finds. The only error is that memory runs out.
pub fn findings_of(alloc: Global, text: &[u8]) -> Result<Findings, AllocError> {
    let parsed = parse(alloc, text)?;
    findings_in(alloc, &parsed)
}

// The fault of a key that stands twice, at where it stands again.
fn fault_of_key(alloc: Global, repeated: &Repeated) -> Result<Error, AllocError> {
    let key = String::from_str(alloc, repeated.key.as_str())?;
    Ok(Error::new(Cause::DuplicateEntry {
        key: EntryKey::String(Words::new(key)),
        place: Some(Place {
            mark: repeated.second,
            path: Words::new(String::from_str(alloc, ".")?),
        }),
    }))
}

// Appends the faults of the aliases from this number on that stand before an index. Returns the number of the next.
fn push_aliases(
    faults: &mut Vec<Error>,
    aliases: &[Unanchored],
    from: usize,
    end: u64,
) -> Result<usize, AllocError> {
    let mut next = from;
    for alias in aliases.iter().skip(from) {
        if alias.mark.index() >= end {
            break;
        }
        faults.push(Error::new(Cause::UnknownAnchor(alias.mark)))?;
        next = next.saturating_add(1);
    }
    Ok(next)
}

/// All faults of a text that need no type to tell, in the order of the text: each key that stands twice in a mapping,
/// each alias without an anchor, and the parser's. The only error is that memory runs out.
pub fn faults_of(alloc: Global, text: &[u8]) -> Result<Vec<Error>, AllocError> {
    let parsed = parse(alloc, text)?;
    let findings = findings_in(alloc, &parsed)?;
    let aliases = findings.unanchored.as_slice();
    let mut faults = Vec::new(alloc);
    let mut next = 0;
    for repeated in findings.repeated.iter() {
        next = push_aliases(&mut faults, aliases, next, repeated.second.index())?;
        faults.push(fault_of_key(alloc, repeated)?)?;
    }
    push_aliases(&mut faults, aliases, next, u64::MAX)?;
    let Parsed { fault, .. } = parsed;
    if let Some(fault) = fault {
        faults.push(Error::from(fault))?;
    }
    Ok(faults)
}
