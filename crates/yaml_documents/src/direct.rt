//! All documents of the text of a tape.

ghost use Rattle.std.specs.Prelude.{◌≡◌, IfErr, IfNone, IfOk, IfSome, false, true};
ghost use Rattle.yaml_base.specs.Answer.{is_memory};
ghost use Rattle.yaml_base.specs.MarkedEvents.{plain_events, plain_marked};
ghost use Rattle.yaml_base.specs.Stream.{IsStream};
ghost use Rattle.yaml_checked.specs.OfText.{AreTextsOwn, IsOfText, SaysText};
ghost use Rattle.yaml_documents.specs.TextDocuments.{AreDocumentsOf, AreReadDocumentsOf};
ghost use Rattle.yaml_reading.specs.Refused.{NothingStands};
ghost use Rattle.yaml_scan.specs.AllowedText.{IsAllowed};

use std::alloc::Global;
use yaml_base::{Cause, Error, Result};
use yaml_checked::{Refusal, TapeEvents};
use yaml_load::LoaderBuilder;
use yaml_read::Loader;
use yaml_tape::Tape;

// Hands all events over to a loader, which takes them, and tells whether none was refused.
fn hand_over<'de>(
    alloc: Global,
    events: &mut TapeEvents<'de>,
    builder: &mut LoaderBuilder<'de>,
) -> Result<bool>
    requires { builder.old ≡ plain_marked events.old.given }
    ensures text { events.new.text ≡ events.old.text }
    ensures agree { IfOk result (λ all. all ≡ true → builder.new ≡ plain_marked events.new.given) }
    ensures stream { IfOk result (λ all. all ≡ true → IsStream (plain_events events.new.given)) }
    ensures own { IsOfText events.old → IfOk result (λ all. all ≡ true
        → AreTextsOwn events.new.text (plain_marked events.new.given)) }
    ensures left { IsOfText events.old → IfOk result (λ all. all ≡ false → NothingStands events.old.text) }
    ensures memory { IfErr result (λ cause. is_memory cause ≡ true) }
{
    'events: loop {
        match events.next_event(alloc) {
            Ok(Some((event, mark))) => {
                events.has_events();
                if let Err(fault) = builder.push(event, mark) {
                    return Err(fault);
                }
            }
            Ok(None) => return Ok(true),
            Err(Refusal::OutOfMemory) => return Err(Error::new(Cause::Memory)),
            Err(Refusal::Untrue | Refusal::Left) => return Ok(false),
        }
    }
}

// The documents of the text of a tape, if its events are a stream: where it says the documents that stand in the text,
// they are those, and it says none only where none stand.
pub(crate) fn load_events<'de>(alloc: Global, tape: Tape<'de>) -> Result<Option<Loader<'de>>>
    requires { IsAllowed tape.text.now }
    ensures documents { IfOk result (λ found. IfSome found (AreReadDocumentsOf tape.entry.text.now)) }
    ensures own { SaysText tape.entry → IfOk result (λ found. IfSome found (AreDocumentsOf tape.entry.text.now)) }
    ensures left { SaysText tape.entry → IfOk result (λ found. IfNone found (NothingStands tape.entry.text.now)) }
    ensures memory { IfErr result (λ cause. is_memory cause ≡ true) }
{
    let mut events = TapeEvents::of_tape(alloc, tape);
    let mut builder = LoaderBuilder::with_capacity(alloc, events.size_hint())?;
    if !hand_over(alloc, &mut events, &mut builder)? {
        return Ok(None);
    }
    events.has_events();
    match builder.finish(None) {
        Ok(documents) => Ok(Some(Loader::from(documents))),
        Err(fault) => Err(fault),
    }
}
