//! Open collections, and where their parts stand.

ghost use Rattle.std.specs.Prelude.{◌≡◌, ◌+◌, ◌++◌, IfOk, OnOk, string_bytes};
ghost use Rattle.yaml_emit.specs.LayoutMachine.{margin_and_indicator, next_awaits, part_begun, part_place};
ghost use Rattle.yaml_emit.specs.LayoutMachine.{parts_column, root_lead};
ghost use Rattle.yaml_emit.specs.Places.{blank, margin, root_place};

use crate::quoted::push_blanks;
use std::alloc::AllocError;

/// What stands before a node in its line.
#[derive(Clone, Copy, PartialEq, Eq)]
pub enum Lead {
    /// Nothing but its indentation.
    Fresh,
    /// `-`, `?` or `:`, behind which a collection may begin in the line.
    Indicator,
    /// Anything else: a key with its `:`, a tag, or `---`.
    Text,
}

// What an open collection waits for.
#[derive(Clone, Copy, PartialEq, Eq)]
pub(crate) enum Awaits {
    // An item, or the end of the sequence.
    Item,
    // A key, or the end of the mapping.
    Key,
    // The value of a key in a line.
    Value,
    // The value of a key behind `?`.
    FarValue,
}

// An open collection.
#[derive(Clone, Copy)]
pub(crate) struct Open {
    pub(crate) awaits: Awaits,
    // The column of its parts.
    pub(crate) column: usize,
    // What stands before its next part.
    pub(crate) lead: Lead,
}

/// Where a node stands.
#[derive(Clone, Copy)]
pub struct Place {
    pub(crate) lead: Lead,
    // Whether it is a key in a line with its value.
    pub(crate) key: bool,
    // The column of its parts, if it has any.
    pub(crate) column: usize,
    // The same of a sequence that doesn't begin in this line.
    pub(crate) level: usize,
}

// What stands before the root of the first document, or of a later one.
fn root_lead(is_first: bool) -> Lead
    ensures { result ≡ root_lead is_first }
{
    if is_first { Lead::Fresh } else { Lead::Text }
}

// Two columns further in. A column that can't be counted has no room in memory.
fn deeper(column: usize) -> Result<usize, AllocError>
    ensures { IfOk result (λ inner. inner ≡ column + 2) }
{
    match column.checked_add(2) {
        Some(inner) => Ok(inner),
        None => Err(AllocError),
    }
}

// Where a part stands that begins in this column.
fn part_place(awaits: Awaits, column: usize, inner: usize, simple: bool) -> Place
    requires { inner ≡ column + 2 }
    ensures { result ≡ part_place awaits column simple }
{
    let (lead, key, level) = match awaits {
        Awaits::Item => (Lead::Indicator, false, inner),
        Awaits::Key if simple => (Lead::Fresh, true, column),
        Awaits::Value => (Lead::Text, false, column),
        Awaits::Key | Awaits::FarValue => (Lead::Indicator, false, column),
    };
    Place {
        lead,
        key,
        column: inner,
        level,
    }
}

// What a collection waits for behind a part.
fn next_awaits(awaits: Awaits, simple: bool) -> Awaits
    ensures { result ≡ next_awaits awaits simple }
{
    match awaits {
        Awaits::Item => Awaits::Item,
        Awaits::Key if simple => Awaits::Value,
        Awaits::Key => Awaits::FarValue,
        Awaits::Value | Awaits::FarValue => Awaits::Key,
    }
}

// Adds a blank, unless the line begins here.
pub(crate) fn push_blank(out: &mut String, lead: Lead) -> Result<(), AllocError>
    ensures { OnOk result (string_bytes out.new ≡ string_bytes out.old ++ blank lead) }
{
    if lead == Lead::Fresh {
        return Ok(());
    }
    out.push(' ')
}

// Adds what stands before a part of a collection in its line.
fn push_margin(out: &mut String, lead: Lead, column: usize) -> Result<(), AllocError>
    ensures { OnOk result (string_bytes out.new ≡ string_bytes out.old ++ margin lead column) }
{
    match lead {
        Lead::Fresh => push_blanks(out, column),
        Lead::Indicator => out.push(' '),
        Lead::Text => {
            out.push('\n')?;
            push_blanks(out, column)
        }
    }
}

impl Place {
    // The root of a document.
    pub(crate) fn root(is_first: bool) -> Place
        ensures { result ≡ root_place (root_lead is_first) }
    {
        Place {
            lead: root_lead(is_first),
            key: false,
            column: 0,
            level: 0,
        }
    }

    // The column of the parts of a collection that stands here, behind its tag.
    pub(crate) fn parts_column(&self, awaits: Awaits, lead: Lead) -> usize
        ensures { result ≡ parts_column awaits self.now lead }
    {
        if awaits == Awaits::Item && lead != Lead::Indicator {
            self.level
        } else {
            self.column
        }
    }
}

impl Open {
    // Adds the margin and the indicator of the next part. A key may be one in a line.
    pub(crate) fn push_before_part(&self, out: &mut String, simple: bool) -> Result<(), AllocError>
        ensures { OnOk result (string_bytes out.new
            ≡ string_bytes out.old ++ margin_and_indicator self.now.awaits self.now.lead self.now.column simple) }
    {
        if self.awaits == Awaits::Value {
            return Ok(());
        }
        push_margin(out, self.lead, self.column)?;
        match self.awaits {
            Awaits::Item => out.push('-'),
            Awaits::Key if simple => Ok(()),
            Awaits::Key => out.push('?'),
            Awaits::Value | Awaits::FarValue => out.push(':'),
        }
    }

    // Where the next part stands. A key may be one in a line.
    pub(crate) fn part_place(&self, simple: bool) -> Result<Place, AllocError>
        ensures { IfOk result (λ place. place ≡ part_place self.now.awaits self.now.column simple) }
    {
        let inner = deeper(self.column)?;
        Ok(part_place(self.awaits, self.column, inner, simple))
    }

    // The collection once its next part has begun.
    pub(crate) fn turned(&self, simple: bool) -> Open
        ensures { result ≡ part_begun self.now simple }
    {
        Open {
            awaits: next_awaits(self.awaits, simple),
            column: self.column,
            lead: Lead::Fresh,
        }
    }
}
