//! Nodes, and what stands before them.

ghost use Rattle.std.specs.Prelude.{◌≡◌, ◌≢◌, None, drop, length, min, true};
ghost use Rattle.yaml_base.specs.declared.event.ScalarStyle.TheVariants as written;
ghost use Rattle.yaml_base.specs.declared.open.Open.TheVariants.{Key, Sequence};
ghost use Rattle.yaml_parse.specs.Frames.{open_of};
ghost use Rattle.yaml_parse.specs.Kept.{Keeps};

use crate::fault::fault_in;
use crate::frame::Frame;
use crate::machine::Machine;
use crate::plain::plain_text;
use crate::properties::{Properties, WrittenTag, resolve};
use std::mem;
use yaml_base::{Anchor, MappingStart, Mark, Scalar, ScalarStyle, SequenceStart, Tag};
use yaml_scan::{Context, Problem, Span, Stop, Token};

// Which nodes may stand in a place.
#[derive(Clone, Copy)]
pub(crate) enum Nodes {
    // Those within brackets.
    Flow,
    // Those by indentation too.
    Block,
    // And a sequence whose `-` are at the column of the key.
    Indentless,
}

// A node's anchor and its tag, with where they begin, or else the node, and where they end.
#[derive(Drop)]
struct Named {
    anchor: Option<Anchor>,
    tag: Option<Tag>,
    start: Mark,
    end: u64,
}

impl Named {
    // Neither, before a node that begins here.
    fn alone(mark: Mark) -> Named {
        Named {
            anchor: None,
            tag: None,
            start: mark,
            end: mark.index(),
        }
    }

    // Whether neither an anchor nor a tag stands before the node.
    #[inline(always)]
    fn is_alone(&self) -> bool
        ensures { (self.now.anchor ≡ None → self.now.tag ≡ None → result ≡ true) }
    {
        self.anchor.is_none() && self.tag.is_none()
    }

    // How many bytes of the node stand before its text, which begins at this index.
    #[inline(always)]
    fn len_before(&self, text: u64) -> usize
        ensures { self.now.anchor ≡ None → self.now.tag ≡ None → result ≡ 0 }
    {
        if self.is_alone() {
            0
        } else {
            text.saturating_sub(self.start.index()) as usize
        }
    }
}

// The bytes of a source from this index on; none where it is shorter.
#[inline(always)]
fn text_in(source: &[u8], front: usize) -> &[u8]
    ensures { result.now ≡ drop (min front (length source.now)) source.now }
{
    &source[front.min(source.len())..]
}

// The place behind an indicator, which stands in one line.
fn mark_behind(indicator: &Span) -> Mark {
    let start = indicator.start;
    let len = indicator.end.saturating_sub(start.index());
    match Mark::new(
        indicator.end,
        start.line(),
        start.column().saturating_add(len),
    ) {
        Some(mark) => mark,
        None => start,
    }
}

impl<'a> Machine<'a> {
    // A node, or a part of what stands before one.
    pub(crate) fn node(&mut self, nodes: Nodes, token: &mut Token, at: &Span) -> Result<bool, Stop>
        ensures { Keeps self.old.stream self.new.stream }
    {
        if self.properties.is_none() {
            return self.first(nodes, token, at);
        }
        match self.properties.take() {
            Some(properties) => self.behind(properties, nodes, token, at),
            None => self.first(nodes, token, at),
        }
    }

    // A node with nothing before it, or the first part of what stands before one.
    #[inline(always)]
    fn first(&mut self, nodes: Nodes, token: &mut Token, at: &Span) -> Result<bool, Stop>
        ensures { Keeps self.old.stream self.new.stream }
    {
        match token {
            Token::Alias(name) => {
                let name = mem::replace(name, Vec::new(self.alloc));
                self.stream.alias(Anchor::new(name), at.start)?;
                Ok(true)
            }
            Token::Anchor(_) | Token::Tag { .. } => {
                self.behind(Properties::none(at.start), nodes, token, at)
            }
            _ => self.named_node(Named::alone(at.start), nodes, token, at),
        }
    }

    // A node behind an anchor or a tag, or the other of both.
    #[inline(always)]
    fn behind(
        &mut self,
        mut properties: Properties,
        nodes: Nodes,
        token: &mut Token,
        at: &Span,
    ) -> Result<bool, Stop>
        ensures { Keeps self.old.stream self.new.stream }
    {
        match token {
            Token::Anchor(name) if properties.anchor.is_none() => {
                properties.anchor = Some(mem::replace(name, Vec::new(self.alloc)));
                properties.end = at.end;
                self.properties = Some(properties);
                Ok(true)
            }
            Token::Tag { handle, suffix } if properties.tag.is_none() => {
                properties.tag = Some(WrittenTag {
                    handle: mem::replace(handle, Vec::new(self.alloc)),
                    suffix: mem::replace(suffix, Vec::new(self.alloc)),
                    mark: at.start,
                });
                properties.end = at.end;
                self.properties = Some(properties);
                Ok(true)
            }
            _ => {
                let named = self.named(properties)?;
                self.named_node(named, nodes, token, at)
            }
        }
    }

    // What stands before a node, with its tag resolved.
    fn named(&mut self, properties: Properties) -> Result<Named, Stop>
        ensures { Keeps self.old.stream self.new.stream }
    {
        let Properties {
            anchor,
            tag,
            start,
            end,
        } = properties;
        let tag = self.tag(tag, start)?;
        let anchor = anchor.map(|name| Anchor::new(name));
        Ok(Named {
            anchor,
            tag,
            start,
            end,
        })
    }

    // The tag of a node, which begins at `start`.
    fn tag(&mut self, tag: Option<WrittenTag>, start: Mark) -> Result<Option<Tag>, Stop>
        ensures { Keeps self.old.stream self.new.stream }
    {
        let Some(written) = tag else {
            return Ok(None);
        };
        let mark = written.mark;
        match resolve(self.alloc, self.handles.as_slice(), written)? {
            Some(tag) => Ok(Some(tag)),
            None => Err(
                self.stream.stop(fault_in(
                    Context::ParsingANode,
                    start,
                    Problem::FoundUndefinedTagHandle,
                    mark,
                )),
            ),
        }
    }

    // What a node is behind its anchor and its tag.
    #[inline(always)]
    fn named_node(
        &mut self,
        named: Named,
        nodes: Nodes,
        token: &mut Token,
        at: &Span,
    ) -> Result<bool, Stop>
        ensures { Keeps self.old.stream self.new.stream }
    {
        match token {
            Token::BlockEntry if matches!(nodes, Nodes::Indentless) => {
                self.sequence(named, Frame::IndentlessEntry, at.start)?;
                Ok(false)
            }
            Token::Plain => {
                self.plain(named, at.start.index(), at.end)?;
                Ok(true)
            }
            Token::Scalar { value, style } => {
                let value = mem::replace(value, Vec::new(self.alloc));
                self.styled(named, value, style.scalar_style(), at.end)?;
                Ok(true)
            }
            Token::FlowSequenceStart => {
                self.sequence(named, Frame::FlowNode, at.start)?;
                Ok(true)
            }
            Token::FlowMappingStart => {
                self.mapping(named, Frame::MapKey, at.start)?;
                Ok(true)
            }
            Token::BlockSequenceStart if !matches!(nodes, Nodes::Flow) => {
                self.sequence(named, Frame::BlockEntry, at.start)?;
                Ok(true)
            }
            Token::BlockMappingStart if !matches!(nodes, Nodes::Flow) => {
                self.mapping(named, Frame::BlockKey, at.start)?;
                Ok(true)
            }
            _ => self.no_node(named, nodes, at.start),
        }
    }

    // An empty scalar behind an anchor or a tag; with neither a node has to stand here.
    fn no_node(&mut self, named: Named, nodes: Nodes, mark: Mark) -> Result<bool, Stop>
        ensures { Keeps self.old.stream self.new.stream }
    {
        if named.anchor.is_none() && named.tag.is_none() {
            let context = match nodes {
                Nodes::Flow => Context::ParsingAFlowNode,
                Nodes::Block | Nodes::Indentless => Context::ParsingABlockNode,
            };
            return Err(
                self.stream.stop(fault_in(
                    context,
                    named.start,
                    Problem::DidNotFindExpectedNodeContent,
                    mark,
                )),
            );
        }
        let end = named.end;
        self.plain(named, end, end)?;
        Ok(false)
    }

    // A plain scalar, whose text begins and ends at these indexes.
    #[tactic(auto, using(crate::proofs::PlainTexts::says))]
    #[inline(always)]
    fn plain(&mut self, named: Named, begin: u64, end: u64) -> Result<(), Stop>
        ensures { Keeps self.old.stream self.new.stream }
    {
        let front = named.len_before(begin);
        let Named {
            anchor,
            tag,
            start,
            ..
        } = named;
        let source = self.stream.source(start, end)?;
        let value = plain_text(self.alloc, text_in(source, front))?;
        let scalar = Scalar {
            anchor,
            tag,
            value,
            style: ScalarStyle::Plain,
            repr: Some(source),
        };
        self.stream.scalar(scalar, start)
    }

    // A scalar between quotes or a block, whose text ends here.
    fn styled(
        &mut self,
        named: Named,
        value: Vec<u8>,
        style: ScalarStyle,
        end: u64,
    ) -> Result<(), Stop>
        requires { style ≢ written.Plain }
        ensures { Keeps self.old.stream self.new.stream }
    {
        let Named {
            anchor,
            tag,
            start,
            ..
        } = named;
        let source = self.stream.source(start, end)?;
        let scalar = Scalar {
            anchor,
            tag,
            value,
            style,
            repr: Some(source),
        };
        self.stream.scalar(scalar, start)
    }

    // An empty scalar before this token, with nothing of its own.
    pub(crate) fn nothing(&mut self, mark: Mark) -> Result<bool, Stop>
        ensures { Keeps self.old.stream self.new.stream }
    {
        self.plain(Named::alone(mark), mark.index(), mark.index())?;
        Ok(false)
    }

    // An empty scalar behind an indicator, with nothing of its own.
    #[inline(never)]
    pub(crate) fn nothing_behind(&mut self, indicator: &Span) -> Result<bool, Stop>
        ensures { Keeps self.old.stream self.new.stream }
    {
        self.nothing(mark_behind(indicator))
    }

    // The start of a sequence that waits for `first`.
    #[inline(always)]
    fn sequence(&mut self, named: Named, first: Frame, opened: Mark) -> Result<(), Stop>
        requires { open_of first ≡ Sequence }
        ensures { Keeps self.old.stream self.new.stream }
    {
        let Named {
            anchor,
            tag,
            start,
            ..
        } = named;
        self.stream
            .begin_sequence(SequenceStart { anchor, tag }, start, first, opened)
    }

    // The start of a mapping that waits for `first`.
    #[inline(always)]
    fn mapping(&mut self, named: Named, first: Frame, opened: Mark) -> Result<(), Stop>
        requires { open_of first ≡ Key }
        ensures { Keeps self.old.stream self.new.stream }
    {
        let Named {
            anchor,
            tag,
            start,
            ..
        } = named;
        self.stream
            .begin_mapping(MappingStart { anchor, tag }, start, first, opened)
    }
}
