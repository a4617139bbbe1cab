//! The room that a caller gives, and how much of it is taken.

ghost use Rattle.std.specs.Prelude.{◌≡◌};
ghost use Rattle.yaml_c.specs.inner.Room.{Grows, HasText, IsPut};

use crate::rows::YamlRow;

/// How many rows and how many bytes of texts there are so far, those for which there was no room among them.
#[derive(Clone, Copy)]
pub(crate) struct Tally {
    pub(crate) rows: usize,
    pub(crate) bytes: usize,
}

/// A part of the texts.
#[derive(Clone, Copy)]
pub(crate) struct Part {
    pub(crate) at: u64,
    pub(crate) len: u64,
}

/// One row more.
pub(crate) fn put_row(rows: &mut [YamlRow], tally: &mut Tally, row: YamlRow)
    ensures put { IsPut rows.old tally.old.rows rows.new tally.new.rows row }
    ensures bytes { tally.new.bytes ≡ tally.old.bytes }
{
    if tally.rows < rows.len() {
        rows[tally.rows] = row;
    }
    tally.rows = tally.rows.saturating_add(1);
}

/// One text more, and where it stands.
pub(crate) fn put_text(texts: &mut [u8], tally: &mut Tally, text: &[u8]) -> Part
    ensures grows { Grows texts.old tally.old.bytes texts.new tally.new.bytes }
    ensures put { HasText texts.new tally.new.bytes result.at result.len text.now }
    ensures rows { tally.new.rows ≡ tally.old.rows }
{
    let at = tally.bytes;
    let end = at.saturating_add(text.len());
    if end <= texts.len() {
        texts[at..end].copy_from_slice(text);
    }
    tally.bytes = end;
    Part {
        at: at as u64,
        len: text.len() as u64,
    }
}
