//! The machine that takes tokens one by one and gives events.

ghost use Rattle.std.specs.Prelude.{◌≡◌};
ghost use Rattle.yaml_parse.specs.Kept.{Keeps};

use crate::fault::{endless, fault_in};
use crate::frame::{Frame, Phase};
use crate::properties::{Handle, Properties};
use crate::stream::Stream;
use std::alloc::Global;
use yaml_base::Mark;
use yaml_scan::{Context, Lead, Placed, Problem, Span, Stop, Token};

// A parser of a text, amid its tokens.
#[derive(Drop)]
pub(crate) struct Machine<'a> {
    pub(crate) alloc: Global,
    pub(crate) stream: Stream<'a>,
    // What stands before the node that is to come.
    pub(crate) properties: Option<Properties>,
    // Where the last indicator stands.
    pub(crate) indicator: Span,
    // Whether the document has a `%YAML` directive.
    pub(crate) has_version: bool,
    // What the document's `%TAG` directives say.
    pub(crate) handles: Vec<Handle>,
}

// The most steps at a token.
const STEPS: usize = 8;

impl<'a> Machine<'a> {
    // A parser that has taken no token, which go on at this mark behind the stream's events. Takes no memory.
    pub(crate) fn new(alloc: Global, stream: Stream<'a>, start: Mark) -> Machine<'a>
        ensures { result.stream ≡ stream.entry }
    {
        Machine {
            alloc,
            stream,
            properties: None,
            indicator: Span {
                start,
                end: start.index(),
            },
            has_version: false,
            handles: Vec::new(alloc),
        }
    }

    // Goes over a token and what stands before it.
    #[inline(always)]
    pub(crate) fn take(&mut self, placed: Placed) -> Result<(), Stop>
        ensures { Keeps self.old.stream self.new.stream }
    {
        let Placed {
            lead,
            mut token,
            span: Span { start, end },
        } = placed;
        if lead != Lead::Nothing {
            self.begin_key(lead == Lead::MappingKey, start)?;
        }
        self.feed(&mut token, &Span { start, end })
    }

    // Goes over the place of a key, and the start of a mapping before it, if one begins there.
    fn begin_key(&mut self, mapping: bool, start: Mark) -> Result<(), Stop>
        ensures { Keeps self.old.stream self.new.stream }
    {
        let before = Span {
            start,
            end: start.index(),
        };
        if mapping {
            self.feed(&mut Token::BlockMappingStart, &before)?;
        }
        self.feed(&mut Token::Key, &before)
    }

    // Goes over a token.
    #[inline(always)]
    fn feed(&mut self, token: &mut Token, at: &Span) -> Result<(), Stop>
        ensures { Keeps self.old.stream self.new.stream }
    {
        'steps: for _ in 0..STEPS {
            if self.step(token, at)? {
                return Ok(());
            }
        }
        Err(self.stream.stop(endless(at.start)))
    }

    // One step at a token: whether it was used up.
    #[inline(always)]
    fn step(&mut self, token: &mut Token, at: &Span) -> Result<bool, Stop>
        ensures { Keeps self.old.stream self.new.stream }
    {
        match self.stream.phase() {
            Phase::First => self.document_start(true, token, at),
            Phase::Next => self.document_start(false, token, at),
            Phase::Directives => self.directive(token, at),
            Phase::Root => self.root(token, at),
            Phase::Content => self.content(token, at),
            Phase::Within(frame) => self.inside(frame, token, at),
            Phase::Ended => self.document_end(token, at),
            Phase::Before | Phase::After => Ok(true),
        }
    }

    // One step at a token in a collection.
    #[inline(always)]
    fn inside(&mut self, frame: Frame, token: &mut Token, at: &Span) -> Result<bool, Stop>
        ensures { Keeps self.old.stream self.new.stream }
    {
        match frame {
            Frame::BlockEntry => self.block_entry(token, at),
            Frame::BlockNode => self.block_node(token, at),
            Frame::IndentlessEntry => self.indentless_entry(token, at),
            Frame::IndentlessNode => self.indentless_node(token, at),
            Frame::BlockKey => self.block_key(token, at),
            Frame::BlockKeyNode | Frame::BlockValueNode => self.block_part(token, at),
            Frame::BlockValue => self.block_value(token, at),
            Frame::FlowNode => self.flow_node(token, at),
            Frame::FlowEntry => self.flow_entry(token, at),
            Frame::PairKey => self.pair_key(token, at),
            Frame::PairValue => self.pair_value(token, at),
            Frame::PairValueNode => self.pair_value_node(token, at),
            Frame::PairEnd => self.pair_end(at),
            Frame::MapKey => self.map_key(token, at),
            Frame::MapKeyNode => self.map_key_node(token, at),
            Frame::MapValue => self.map_value(token, at),
            Frame::MapValueNode => self.map_value_node(token, at),
            Frame::MapNoValue => self.nothing(at.start),
            Frame::MapEntry => self.map_entry(token, at),
        }
    }

    // Goes on in the innermost collection by an indicator.
    #[inline(always)]
    pub(crate) fn pass(&mut self, frame: Frame, at: &Span) -> Result<bool, Stop>
        ensures { Keeps self.old.stream self.new.stream }
    {
        self.indicator = *at;
        self.stream.go(frame);
        Ok(true)
    }

    // What is wrong within the innermost collection.
    pub(crate) fn fault_within(&mut self, context: Context, problem: Problem, mark: Mark) -> Stop
        ensures { Keeps self.old.stream self.new.stream }
    {
        let opened = self.stream.opened();
        self.stream.stop(fault_in(context, opened, problem, mark))
    }
}
