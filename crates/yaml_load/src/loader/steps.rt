//! The steps by which events become documents.

ghost use Rattle.std.specs.Prelude.{◌≡◌, ◌+◌, ◌≤◌};
ghost use Rattle.yaml_load.specs.Words.{[], IfOk, List, is_some, length, true, Position, alias, document_end};
ghost use Rattle.yaml_load.specs.Words.{document_start, event_of, mapping_end, mapping_start, scalar_of, sequence_end};
ghost use Rattle.yaml_load.specs.Words.{sequence_start, Input, documents_of, last_mark, IsClean, is_open};
ghost use Rattle.yaml_load.specs.Words.{IsDraftBetween};
ghost use Rattle.yaml_load.specs.Words.{IsOnWay, IsReady, StepsOver};
ghost use Rattle.yaml_base.specs.PlainEvent.{scalar as scalar_event};

use crate::check::{
    Phase, after_document_end, after_document_start, after_leaf, after_mapping, after_sequence,
    after_start, after_stream_end, after_stream_start,
};
use crate::loader::draft::Draft;
use std::alloc::{AllocError, Global};
use yaml_base::{
    Anchor, DocEvent, DocScalar, DocStart, Event, MappingStart, Mark, Open, ParserFault, Scalar,
    SequenceStart,
};

impl<'de> Draft<'de> {
    // The place of the next event in the open document.
    fn place(&self) -> usize
        requires { self.now.from ≤ length self.now.events.items }
        ensures { self.now.from + result ≡ length self.now.events.items }
    {
        self.events.len() - self.from
    }

    // Goes over a scalar, if one may stand in this phase, and answers the phase behind it.
    #[inline(always)]
    pub(crate) fn scalar(
        &mut self,
        phase: Phase,
        scalar: Scalar<'de>,
        mark: Mark,
    ) -> Result<Option<Phase>, AllocError>
        requires { is_open phase ≡ true → IsReady self.old }
        ensures { (outer : List Open) → IsClean phase outer → IfOk result (λ found.
            StepsOver phase outer (scalar_event (scalar_of scalar.entry)) mark self.old outer self.new found) }
    {
        let Some(after) = after_leaf(phase) else {
            return Ok(None);
        };
        let Scalar {
            anchor,
            tag,
            value,
            style,
            repr,
        } = scalar;
        let place = self.place();
        self.anchors.name(anchor, place)?;
        self.ends.pass(place)?;
        self.events.reserve(1)?;
        self.events.push_reserved((
            DocEvent::Scalar(DocScalar {
                tag,
                value,
                style,
                repr,
            }),
            mark,
        ));
        Ok(Some(after))
    }

    // Goes over an alias, if one may stand in this phase, and answers the phase behind it.
    #[inline(always)]
    pub(crate) fn alias(
        &mut self,
        phase: Phase,
        anchor: Anchor,
        mark: Mark,
    ) -> Result<Option<Phase>, AllocError>
        requires { is_open phase ≡ true → IsReady self.old }
        ensures { (outer : List Open) → IsClean phase outer → IfOk result (λ found.
            StepsOver phase outer (alias anchor) mark self.old outer self.new found) }
    {
        let Some(after) = after_leaf(phase) else {
            return Ok(None);
        };
        let place = self.place();
        let target = self.anchors.refer(anchor, place)?;
        self.ends.pass(place)?;
        self.events.reserve(1)?;
        self.events.push_reserved((DocEvent::Alias(target), mark));
        Ok(Some(after))
    }

    // Goes over the start of a sequence, if one may stand in this phase, and answers the phase behind it.
    #[inline(always)]
    pub(crate) fn begin_sequence(
        &mut self,
        phase: Phase,
        outer: &mut Vec<Open>,
        start: SequenceStart,
        mark: Mark,
    ) -> Result<Option<Phase>, AllocError>
        requires clean { IsClean phase outer.old.items }
        requires ready { is_open phase ≡ true → IsReady self.old }
        ensures { IfOk result (λ found. StepsOver phase outer.old.items (sequence_start start.anchor start.tag) mark
            self.old outer.new.items self.new found) }
    {
        let after = match after_start(phase, outer, Open::Sequence)? {
            Some(after) => after,
            None => return Ok(None),
        };
        let place = self.place();
        self.anchors.name(start.anchor, place)?;
        self.ends.begin(place)?;
        self.events.reserve(1)?;
        self.events.push_reserved((DocEvent::SequenceStart(DocStart { tag: start.tag }), mark));
        Ok(Some(after))
    }

    // Goes over the start of a mapping, if one may stand in this phase, and answers the phase behind it.
    #[inline(always)]
    pub(crate) fn begin_mapping(
        &mut self,
        phase: Phase,
        outer: &mut Vec<Open>,
        start: MappingStart,
        mark: Mark,
    ) -> Result<Option<Phase>, AllocError>
        requires clean { IsClean phase outer.old.items }
        requires ready { is_open phase ≡ true → IsReady self.old }
        ensures { IfOk result (λ found. StepsOver phase outer.old.items (mapping_start start.anchor start.tag) mark
            self.old outer.new.items self.new found) }
    {
        let after = match after_start(phase, outer, Open::Key)? {
            Some(after) => after,
            None => return Ok(None),
        };
        let place = self.place();
        self.anchors.name(start.anchor, place)?;
        self.ends.begin(place)?;
        self.events.reserve(1)?;
        self.events.push_reserved((DocEvent::MappingStart(DocStart { tag: start.tag }), mark));
        Ok(Some(after))
    }

    // Goes over the end of a sequence, if one may stand in this phase, and answers the phase behind it.
    #[inline(always)]
    pub(crate) fn end_sequence(
        &mut self,
        phase: Phase,
        outer: &mut Vec<Open>,
        mark: Mark,
    ) -> Result<Option<Phase>, AllocError>
        requires clean { IsClean phase outer.old.items }
        requires ready { is_open phase ≡ true → IsReady self.old }
        ensures { IfOk result (λ found.
            StepsOver phase outer.old.items sequence_end mark self.old outer.new.items self.new found) }
    {
        let Some(after) = after_sequence(phase, outer) else {
            return Ok(None);
        };
        let place = self.place();
        self.ends.end(place)?;
        self.events.reserve(1)?;
        self.events.push_reserved((DocEvent::SequenceEnd, mark));
        Ok(Some(after))
    }

    // Goes over the end of a mapping, if one may stand in this phase, and answers the phase behind it.
    #[inline(always)]
    pub(crate) fn end_mapping(
        &mut self,
        phase: Phase,
        outer: &mut Vec<Open>,
        mark: Mark,
    ) -> Result<Option<Phase>, AllocError>
        requires clean { IsClean phase outer.old.items }
        requires ready { is_open phase ≡ true → IsReady self.old }
        ensures { IfOk result (λ found.
            StepsOver phase outer.old.items mapping_end mark self.old outer.new.items self.new found) }
    {
        let Some(after) = after_mapping(phase, outer) else {
            return Ok(None);
        };
        let place = self.place();
        self.ends.end(place)?;
        self.events.reserve(1)?;
        self.events.push_reserved((DocEvent::MappingEnd, mark));
        Ok(Some(after))
    }

    // Goes over the start of a document, if one may stand in this phase, and answers the phase behind it.
    pub(crate) fn begin_document(&mut self, phase: Phase) -> Option<Phase>
        ensures { (outer : List Open) (mark : Position) → IsClean phase outer
            → StepsOver phase outer document_start mark self.old outer self.new result }
    {
        let Some(after) = after_document_start(phase) else {
            return None;
        };
        self.begin();
        Some(after)
    }

    // Goes over the end of a document, if one may stand in this phase, and answers the phase behind it.
    #[inline(always)]
    pub(crate) fn end_document(
        &mut self,
        alloc: Global,
        phase: Phase,
    ) -> Result<Option<Phase>, AllocError>
        requires { is_open phase ≡ true → IsReady self.old }
        ensures { (outer : List Open) (mark : Position) → IsClean phase outer → IfOk result (λ found.
            StepsOver phase outer document_end mark self.old outer self.new found) }
    {
        let Some(after) = after_document_end(phase) else {
            return Ok(None);
        };
        self.finish(alloc, None)?;
        Ok(Some(after))
    }

    // Goes over an event, if it may stand in this phase, and answers the phase behind it. What the collections around
    // the innermost wait for stands beside the phase.
    #[inline(always)]
    pub(crate) fn take(
        &mut self,
        alloc: Global,
        phase: Phase,
        outer: &mut Vec<Open>,
        event: Event<'de>,
        mark: Mark,
    ) -> Result<Option<Phase>, AllocError>
        requires clean { IsClean phase outer.old.items }
        requires ready { is_open phase ≡ true → IsReady self.old }
        ensures { IfOk result (λ found. StepsOver phase outer.old.items (event_of event.entry) mark
            self.old outer.new.items self.new found) }
    {
        match event {
            Event::Scalar(scalar) => self.scalar(phase, scalar, mark),
            Event::Alias(anchor) => self.alias(phase, anchor, mark),
            Event::SequenceStart(start) => self.begin_sequence(phase, outer, start, mark),
            Event::SequenceEnd => self.end_sequence(phase, outer, mark),
            Event::MappingStart(start) => self.begin_mapping(phase, outer, start, mark),
            Event::MappingEnd => self.end_mapping(phase, outer, mark),
            Event::DocumentStart => Ok(self.begin_document(phase)),
            Event::DocumentEnd => self.end_document(alloc, phase),
            Event::StreamStart => Ok(after_stream_start(phase)),
            Event::StreamEnd => Ok(after_stream_end(phase)),
        }
    }

    // Goes over the end of the events, within a document or not. The mark is that of the last event.
    pub(crate) fn close(
        &mut self,
        alloc: Global,
        inside: bool,
        end: Option<Mark>,
        fault: Option<ParserFault>,
    ) -> Result<(), AllocError>
        requires { inside ≡ true → IsReady self.old }
        ensures { IfOk result (λ _. (all : Input) → end ≡ last_mark all
            → (inside ≡ true → is_some fault ≡ true)
            → IsOnWay inside fault all [] self.old → IsDraftBetween (documents_of all fault) self.new) }
    {
        match fault {
            Some(fault) => {
                if inside {
                    self.finish(alloc, Some(fault))?;
                } else {
                    self.add_failed(alloc, fault)?;
                }
            }
            None => {
                if self.cuts.is_empty() {
                    if let Some(mark) = end {
                        self.add_void(mark)?;
                    }
                }
            }
        }
        Ok(())
    }
}
