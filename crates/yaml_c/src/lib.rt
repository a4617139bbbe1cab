//! YAML for programs in C and Rust: a text as rows, and rows as a text. Nothing is kept between calls.
#![tactic(auto)]

ghost use Rattle.std.specs.Prelude.{◌≡◌, ◌⊎◌, ◌<◌, ℕ, List, length, take};
ghost use Rattle.yaml_base.specs.EmitEvents.{PlainEmit};
ghost use Rattle.yaml_base.specs.ErrorText.{error_text};
ghost use Rattle.yaml_c.specs.FaultTexts.{asked_cause};
ghost use Rattle.yaml_c.specs.Refused.{HasFault, IsRefusedAt};
ghost use Rattle.yaml_c.specs.RowEvents.{AreEventsOf};
ghost use Rattle.yaml_c.specs.TextRows.{ShowDocumentsOf};
ghost use Rattle.yaml_emit.specs.StreamTexts.{IsStreamText};

mod document;
mod event;
mod fault;
mod fill;
mod load;
mod number;
mod print;
mod room;
mod rows;
mod scalar;

use fill::fill;
use print::{Outcome, Texts};
pub use rows::{YamlRow, YamlSizes};
use std::alloc::Global;

/// The number of this interface.
#[unsafe(no_mangle)]
pub extern "C" fn yaml_c_version() -> u32
    ensures { result ≡ 1 }
{
    1
}

/// Fills in the rows of the documents of a text. Answers 0, or 1 where memory ran out, or 2 where the rows or the texts
/// take more room, which `sizes` tells.
#[unsafe(no_mangle)]
pub extern "C" fn yaml_c_load(
    alloc: Global,
    text: &[u8],
    rows: &mut [YamlRow],
    texts: &mut [u8],
    sizes: &mut YamlSizes,
) -> u32
    ensures documents { result ≡ 0 → ShowDocumentsOf text.now (take sizes.new.rows rows.new) texts.new }
    ensures lacks { result ≡ 2 → (length rows.new < sizes.new.rows) ⊎ (length texts.new < sizes.new.texts) }
{
    match load::load(alloc, text, rows, texts, sizes) {
        Ok(true) => 0,
        Ok(false) => 2,
        Err(_) => 1,
    }
}

/// Fills in the YAML text of the stream that rows are, whose texts stand in `source` and in `texts`. Answers as
/// `yaml_c_load`, or 3 where the rows are no stream, with the place of one that is wrong.
#[unsafe(no_mangle)]
pub extern "C" fn yaml_c_print(
    alloc: Global,
    rows: &[YamlRow],
    source: &[u8],
    texts: &[u8],
    out: &mut [u8],
    sizes: &mut YamlSizes,
) -> u32
    ensures printed { result ≡ 0 → (events : List PlainEmit) × AreEventsOf rows.now source.now texts.now events
        × IsStreamText events (take sizes.new.texts out.new) }
    ensures lacks { result ≡ 2 → length out.new < sizes.new.texts }
    ensures suffices { result ≡ 2 → (events : List PlainEmit) × AreEventsOf rows.now source.now texts.now events
        × ((text : List ℕ) × IsStreamText events text × (sizes.new.texts ≡ length text)) }
    ensures refused { result ≡ 3 → IsRefusedAt rows.now source.now texts.now sizes.new.rows }
{
    match print::print(alloc, rows, Texts { source, texts }) {
        Outcome::Text(text) => { if fill(&text, out, sizes) { 0 } else { 2 } }
        Outcome::Refused(place) => {
            sizes.rows = place as u64;
            sizes.texts = 0;
            3
        }
        Outcome::Memory => 1,
    }
}

/// Fills in the text of a fault, by the number of its cause, the place of a row, words and a path. Answers as
/// `yaml_c_load`, or 3 where there is no such fault.
#[unsafe(no_mangle)]
pub extern "C" fn yaml_c_fault_text(
    alloc: Global,
    cause: u32,
    place: &YamlRow,
    words: &[u8],
    path: &[u8],
    out: &mut [u8],
    sizes: &mut YamlSizes,
) -> u32
    ensures told { result ≡ 0
        → take sizes.new.texts out.new ≡ error_text (asked_cause cause place.now words.now path.now) }
    ensures lacks { result ≡ 2 → length out.new < sizes.new.texts }
    ensures suffices { result ≡ 2
        → sizes.new.texts ≡ length (error_text (asked_cause cause place.now words.now path.now)) }
    ensures none { result ≡ 3 → HasFault cause place.now words.now path.now → ⊥ }
{
    match fault::fault_text(alloc, cause, place, words, path) {
        Ok(Some(text)) => { if fill(&text, out, sizes) { 0 } else { 2 } }
        Ok(None) => {
            sizes.rows = 0;
            sizes.texts = 0;
            3
        }
        Err(_) => 1,
    }
}
