//! A text as rows.

ghost use Rattle.std.specs.Prelude.{◌≡◌, ◌⊎◌, ◌<◌, ◌≤◌, IfOk, false, length, take, true};
ghost use Rattle.yaml_c.specs.TextRows.{ShowDocumentsOf};
ghost use Rattle.yaml_c.specs.inner.Showing.{Adds, ShowsAll, shown_of};

use crate::document::{Parts, put_document};
use crate::room::Tally;
use crate::rows::{YamlRow, YamlSizes};
use std::alloc::Global;
use yaml_base::Result;
use yaml_read::{Document, Loader};

// One document more.
fn put_one(
    alloc: Global,
    source: &[u8],
    rows: &mut [YamlRow],
    texts: &mut [u8],
    tally: &mut Tally,
    document: &Document<'_>,
) -> Result<()>
    ensures { IfOk result (λ _. Adds source.now
        (record { rows = rows.old; bytes = texts.old; used = tally.old.rows; taken = tally.old.bytes })
        (record { rows = rows.new; bytes = texts.new; used = tally.new.rows; taken = tally.new.bytes })
        (shown_of tally.old.rows document.now)) }
{
    let parts = Parts {
        events: document.events(),
        ends: document.ends(),
        error: document.error(),
    };
    put_document(alloc, source, rows, texts, tally, parts)?;
    Ok(())
}

// The documents, and how many rows and bytes of texts they take.
fn put_all(
    alloc: Global,
    source: &[u8],
    rows: &mut [YamlRow],
    texts: &mut [u8],
    documents: Loader<'_>,
) -> Result<Tally>
    ensures { IfOk result (λ tally. ShowsAll source.now
        (record { rows = rows.new; bytes = texts.new; used = tally.rows; taken = tally.bytes }) documents.entry) }
{
    let mut documents = documents;
    let mut tally = Tally { rows: 0, bytes: 0 };
    while let Some(document) = documents.next_document() {
        put_one(alloc, source, rows, texts, &mut tally, &document)?;
    }
    Ok(tally)
}

// Whether there was room for so many rows and bytes of texts, which are told.
fn tell(tally: Tally, rows: &[YamlRow], texts: &[u8], sizes: &mut YamlSizes) -> bool
    ensures rows { sizes.new.rows ≡ tally.rows }
    ensures texts { sizes.new.texts ≡ tally.bytes }
    ensures fits { result ≡ true → (tally.rows ≤ length rows.now) × (tally.bytes ≤ length texts.now) }
    ensures lacks { result ≡ false → (length rows.now < tally.rows) ⊎ (length texts.now < tally.bytes) }
{
    sizes.rows = tally.rows as u64;
    sizes.texts = tally.bytes as u64;
    tally.rows <= rows.len() && tally.bytes <= texts.len()
}

/// Fills in the rows of the documents of a text, and tells their sizes. Whether there was room for all.
pub(crate) fn load(
    alloc: Global,
    text: &[u8],
    rows: &mut [YamlRow],
    texts: &mut [u8],
    sizes: &mut YamlSizes,
) -> Result<bool>
    ensures documents { IfOk result (λ room. room ≡ true
        → ShowDocumentsOf text.now (take sizes.new.rows rows.new) texts.new) }
    ensures lacks { IfOk result (λ room. room ≡ false
        → (length rows.new < sizes.new.rows) ⊎ (length texts.new < sizes.new.texts)) }
{
    let documents = yaml_documents::load(alloc, text)?;
    let tally = put_all(alloc, text, rows, texts, documents)?;
    Ok(tell(tally, rows, texts, sizes))
}
