//! The text of a stream of events.

ghost use Rattle.std.specs.Prelude.{◌≡◌, ◌≤◌, ℕ, List, false, IfErr, IfOk, length, map, string_bytes};
ghost use Rattle.std.specs.Option.{option_map};
ghost use Rattle.yaml_base.specs.Answer.{is_memory};
ghost use Rattle.yaml_base.specs.EmitEvents.{PlainEmit, emit_of};
ghost use Rattle.yaml_base.specs.declared.error.Cause.TheVariants.{NotAStream};
ghost use Rattle.yaml_base.specs.EmitTree.{IsEmitStream};
ghost use Rattle.yaml_emit.specs.LayoutMachine.{Steps, hollow_at, is_mapping_end, is_sequence_end, laid, step};
ghost use Rattle.yaml_emit.specs.Leaves.{leaf_node};
ghost use Rattle.yaml_emit.specs.StreamTexts.{IsStreamText};

use crate::emitter::Emitter;
use crate::layout::Layout;
use crate::leaf::{Content, Leaf, lent_tag, tag_text};
use crate::open::Awaits;
use crate::stop::Stop;
use std::alloc::Global;
use yaml_base::Result;
use yaml_base::emitter::EmitEvent;

// Whether the event is the end of a sequence.
pub(crate) fn is_sequence_end(event: &EmitEvent) -> bool
    ensures { result ≡ is_sequence_end (emit_of event.now) }
{
    matches!(event, EmitEvent::SequenceEnd)
}

// Whether the event is the end of a mapping.
pub(crate) fn is_mapping_end(event: &EmitEvent) -> bool
    ensures { result ≡ is_mapping_end (emit_of event.now) }
{
    matches!(event, EmitEvent::MappingEnd)
}

// The empty collection that begins with an event, where the next one is such an end.
pub(crate) fn hollow_at(
    event: &EmitEvent,
    sequence_ends: bool,
    mapping_ends: bool,
) -> Option<Leaf<'_>>
    ensures { (behind : List PlainEmit) → hollow_at (emit_of event.now) behind sequence_ends mapping_ends
        ≡ option_map (λ leaf. (leaf_node leaf, behind)) result }
{
    let (tag, content) = match event {
        EmitEvent::SequenceStart(start) if sequence_ends => (&start.tag, Content::NoItems),
        EmitEvent::MappingStart(start) if mapping_ends => (&start.tag, Content::NoPairs),
        _ => return None,
    };
    let tag = lent_tag(tag);
    Some(Leaf { tag, content })
}

// Adds what an event is printed as that is no start of an empty collection.
pub(crate) fn take_one(layout: &mut Layout, event: &EmitEvent) -> std::result::Result<(), Stop>
    ensures { Steps (step (laid layout.old) (emit_of event.now)) (laid layout.new) result }
{
    match event {
        EmitEvent::StreamStart => layout.begin_stream(),
        EmitEvent::StreamEnd => layout.end_stream(),
        EmitEvent::DocumentStart => layout.begin_document(),
        EmitEvent::DocumentEnd => layout.end_document(),
        EmitEvent::Scalar(scalar) => layout.push_leaf(Leaf::scalar(scalar)),
        EmitEvent::SequenceStart(start) => layout.open(
            tag_text(lent_tag(&start.tag)),
            Awaits::Item,
        ),
        EmitEvent::SequenceEnd => layout.close(Awaits::Item),
        EmitEvent::MappingStart(start) => layout.open(tag_text(lent_tag(&start.tag)), Awaits::Key),
        EmitEvent::MappingEnd => layout.close(Awaits::Key),
    }
}

/// The text of a stream of events, as libyaml's emitter prints it: documents with `---` between them, collections as
/// blocks, two blanks a level, sequences in mappings at the level of the mapping, empty ones as `[]` and `{}`, and
/// scalars and tags as `push_scalar` and `push_tag` add them.
///
/// Events that are no whole stream are refused, with the place of the first that is wrong. Where memory runs out, what
/// was printed so far is given up.
pub fn emit(alloc: Global, events: &[EmitEvent]) -> Result<String>
    ensures printed { IfOk result (λ text. IsStreamText (map emit_of events.now) (string_bytes text)) }
    ensures refused { IfErr result (λ cause. is_memory cause ≡ false
        → (place : ℕ) × (cause ≡ NotAStream place) × (place ≤ length events.now)) }
    ensures no_stream { IfErr result (λ cause. is_memory cause ≡ false
        → IsEmitStream (map emit_of events.now) → ⊥) }
{
    let mut emitter = Emitter::new(alloc);
    for event in events {
        emitter.push(event)?;
    }
    emitter.finish()
}
