//! All documents of a text.

ghost use Rattle.std.specs.Prelude.{◌≡◌, IfErr, IfOk, true};
ghost use Rattle.yaml_base.specs.Answer.{is_memory};
ghost use Rattle.yaml_checked.specs.OfText.{MayBeLeft, SaysText};
ghost use Rattle.yaml_documents.specs.TextDocuments.{AreDocumentsOf, AreReadDocumentsOf};
ghost use Rattle.yaml_scan.specs.AllowedText.{IsAllowed};

use crate::direct::load_events;
use std::alloc::Global;
use yaml_base::Result;
use yaml_checked::parse_allowed;
use yaml_load::LoaderBuilder;
use yaml_parse::{Ending, Events};
use yaml_read::Loader;
use yaml_tape::Tape;

/// The documents of a YAML text by its tokens, whose events are loaded as they are parsed: those of a text that the
/// direct parser leaves. Of another text it is not known that its events are those of the documents that stand in it.
/// The only error is want of memory.
pub fn load_by_tokens<'de>(alloc: Global, text: &'de [u8]) -> Result<Loader<'de>>
    ensures documents { IfOk result (AreReadDocumentsOf text.now) }
    ensures left { MayBeLeft text.now → IfOk result (AreDocumentsOf text.now) }
    ensures memory { IfErr result (λ cause. is_memory cause ≡ true) }
{
    let mut events = Events::new(alloc, text)?;
    let mut builder = LoaderBuilder::with_capacity(alloc, 0)?;
    'events: while events.has_next()? {
        let (event, mark) = events.take_next();
        events.has_events();
        if let Err(fault) = builder.push(event, mark) {
            return Err(fault);
        }
    }
    events.has_events();
    let Ending { fault, .. } = events.finish(alloc)?;
    match builder.finish(fault) {
        Ok(documents) => Ok(Loader::from(documents)),
        Err(fault) => Err(fault),
    }
}

/// The documents of the text of a tape, whose bytes are allowed: those of `load`, if the tape is that of `parse_allowed`,
/// and the text is not parsed to a tape again. The only error is want of memory.
pub fn load_tape<'de>(alloc: Global, tape: Tape<'de>) -> Result<Loader<'de>>
    requires { IsAllowed tape.text.now }
    ensures documents { IfOk result (AreReadDocumentsOf tape.entry.text.now) }
    ensures own { SaysText tape.entry → IfOk result (AreDocumentsOf tape.entry.text.now) }
    ensures memory { IfErr result (λ cause. is_memory cause ≡ true) }
{
    let text = tape.text;
    match load_events(alloc, tape)? {
        Some(documents) => Ok(documents),
        None => load_by_tokens(alloc, text),
    }
}

/// The documents of a YAML text, which may borrow from it. What can't be parsed is the fault of the document that it
/// stands in. A text whose bytes are not all allowed, by the rules of UTF-8 or of YAML's characters, has one document,
/// cut off before its first event. The only error is want of memory.
///
/// They are those that `Loader::new` makes of the text's events, and no list of these is made. A text of which some
/// part is left by the direct parser is read anew by its tokens, so each fault is the one that these tell. Where
/// documents stand in the text by the grammar it has no fault, and its events are theirs.
pub fn load<'de>(alloc: Global, text: &'de [u8]) -> Result<Loader<'de>>
    ensures documents { IfOk result (AreDocumentsOf text.now) }
    ensures memory { IfErr result (λ cause. is_memory cause ≡ true) }
{
    match parse_allowed(alloc, text)? {
        Some(tape) => load_tape(alloc, tape),
        None => load_by_tokens(alloc, text),
    }
}
